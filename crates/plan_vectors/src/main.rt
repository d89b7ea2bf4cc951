//! Prints the layouts of events and the plans of scripts that it reads, of which `stdout` has what the rules give.
#![tactic(auto)]

mod breaks;
mod draws;
mod inputs;
mod layouts;
mod plans;
mod scales;
mod shifts;
mod telling;

use breaks::show_breaks;
use inputs::{faces_of, fonts_of};
use layouts::show_layouts;
use plans::show_plans;
use scales::show_scales;
use shifts::show_shifts;
use std::io;

/// What can't be read, isn't known, or is too much.
fn unreadable() -> io::Error {
    io::Error::from(io::ErrorKind::InvalidData)
}

/// Two fonts, or one file of faces, the head of a script, and rows, each part behind a line of two bars.
fn parts_of(text: &str) -> [&str; 4] {
    let mut parts = text.split("==\n");
    [
        parts.next().unwrap_or(""),
        parts.next().unwrap_or(""),
        parts.next().unwrap_or(""),
        parts.next().unwrap_or(""),
    ]
}

/// Prints the layouts that a text asks for.
fn lay_out(rt: &HostRuntime, text: &str) -> io::Result<()> {
    let [first, second, head, rows] = parts_of(text);
    let fonts = fonts_of(rt.alloc(), first, second)?;
    show_layouts(rt, &fonts, head, rows)
}

/// Prints the plans that a text asks for.
fn plan_out(rt: &HostRuntime, text: &str) -> io::Result<()> {
    let [first, second, head, rows] = parts_of(text);
    let fonts = fonts_of(rt.alloc(), first, second)?;
    show_plans(rt, &fonts, head, rows)
}

/// Prints a row: what it asks for, and the breaks of a paragraph or the shifts of stands.
fn show_row(rt: &HostRuntime, row: &str) -> io::Result<()> {
    let (kind, question) = row.split_once(' ').ok_or(unreadable())?;
    match kind {
        "breaks" => show_breaks(rt, question),
        "scales" => show_scales(rt, question),
        "shifts" => show_shifts(rt, question),
        _ => Err(unreadable()),
    }
}

/// Prints rows of items without texts.
fn show_rows(rt: &HostRuntime, rows: &str) -> io::Result<()> {
    for row in rows.lines() {
        show_row(rt, row)?;
    }
    Ok(())
}

/// Prints the plans that a text asks for, whose fonts are the faces of one file.
fn show_faces(rt: &HostRuntime, text: &str) -> io::Result<()> {
    let [faces, head, rows, _] = parts_of(text);
    let fonts = faces_of(rt.alloc(), faces)?;
    println!(rt; "faces")?;
    show_plans(rt, &fonts, head, rows)
}

/// Prints the layouts, behind a line of four bars the plans, behind another one the rows of items without texts, and behind a third one the
/// plans of faces.
fn show_all(rt: &HostRuntime, text: &str) -> io::Result<()> {
    let (layouts, rest) = text.split_once("====\n").ok_or(unreadable())?;
    let (plans, rest) = rest.split_once("====\n").ok_or(unreadable())?;
    let (rows, faces) = rest.split_once("====\n").ok_or(unreadable())?;
    lay_out(rt, layouts)?;
    plan_out(rt, plans)?;
    show_rows(rt, rows)?;
    show_faces(rt, faces)
}

fn main(rt: HostRuntime) -> io::Result<()> {
    let text = io::read_to_string(rt.alloc(), rt.reader())?;
    show_all(&rt, text.as_str())
}
