//! Asks the crates what the rows of tables ask, and prints each answer that isn't the row's, and how many rows each table
//! has. The words name the tables, each a file; a row is a question, ` => ` and its answer. The table `runs` comes before
//! those whose rows have scripts: these write the file `a.ass`, which no file of `runs` is.
#![tactic(auto)]

mod counting;
mod edges;
mod events;
mod faults;
mod fonts;
mod held;
mod held_fonts;
mod holding;
mod numbers;
mod plains;
mod regions;
mod reports;
mod rings;
mod runs;
mod scripts;
mod shares;
mod states;
mod tags;
mod telling;
mod texts;
mod writing;

use ass_io::Rt;
use ass_num::Mem;
use std::alloc::Global;
use std::test::Fail;
use std::{env, fs};

/// The answer of what reads texts and chunks.
fn text_answer(alloc: Global, table: &str, question: &str) -> Mem<String> {
    match table {
        "fonts" => fonts::told(alloc, question),
        "script_fonts" => held_fonts::told(alloc, question),
        "scripts" => scripts::told(alloc, question),
        "styles" => scripts::style(alloc, question),
        "line_counts" => scripts::line_count(alloc, question),
        "chunks" => events::chunk_told(alloc, question),
        "lines" => events::line_told(alloc, question),
        "drawings" => tags::drawing(alloc, question),
        "texts" => tags::items(alloc, question),
        "tags" => tags::tags(alloc, question),
        _ => numbers::told(alloc, table, question),
    }
}

/// The answer of what has states or shapes, or is generated or reported.
fn call_answer(alloc: Global, table: &str, question: &str) -> Mem<String> {
    match table {
        "states" | "views" => states::told(alloc, table, question),
        "edges" => edges::left(alloc, question),
        "regions" => regions::regions(alloc, question),
        "borders" => regions::border(alloc, question),
        "plains" => plains::told(alloc, question),
        "generated" => reports::script(alloc, question),
        "reports" => reports::report(alloc, question),
        "shares" => shares::told(alloc, question),
        _ => text_answer(alloc, table, question),
    }
}

/// The answer of a run over the files that lie here.
fn file_answer(lent: &impl Rt, rt: &HostRuntime, table: &str, question: &str) -> Mem<String> {
    match table {
        "runs" => runs::told(lent, rt, question),
        "lists" => runs::list(lent, rt, question),
        "digests" => runs::digest(lent, rt, question),
        "image_bytes" => runs::pixel(lent, rt, question),
        "jobs" => runs::job(rt.alloc(), question),
        _ => call_answer(rt.alloc(), table, question),
    }
}

/// The answer to a question of a table.
fn answer(lent: &impl Rt, rt: &HostRuntime, table: &str, question: &str) -> Result<String, Fail> {
    match table {
        "plays" | "changes" | "pictures" => texts::told(lent, rt, "head.ass", question),
        "styled_changes" => texts::told(lent, rt, "styled.ass", question),
        "written" => texts::written(lent, rt, question),
        "long_checks" => texts::long_check(lent, rt, question),
        "faults" => faults::told(lent, rt, question),
        "held" => held::told(lent, rt, question),
        "event_lines" => writing::told(rt.alloc(), question),
        _ => Ok(file_answer(lent, rt, table, question)?),
    }
}

/// Prints a question and its answer.
fn tell(rt: &HostRuntime, table: &str, question: &str, found: &str) -> Result<(), Fail> {
    println!(rt; "{table}: {question} => {found}")?;
    Ok(())
}

/// Prints the answer of a row, where it isn't the row's own.
fn ask(lent: &impl Rt, rt: &HostRuntime, table: &str, row: &str) -> Result<(), Fail> {
    let Some((question, wanted)) = row.split_once(" => ") else {
        return tell(rt, table, row, "no answer");
    };
    let found = answer(lent, rt, table, question)?;
    if found.as_str() == wanted {
        return Ok(());
    }
    tell(rt, table, question, found.as_str())
}

/// Asks each row: how many there are.
fn ask_rows(lent: &impl Rt, rt: &HostRuntime, table: &str, rows: &str) -> Result<u32, Fail> {
    let mut count = 0u32;
    for row in rows.lines() {
        ask(lent, rt, table, row)?;
        count = count.saturating_add(1);
    }
    Ok(count)
}

/// Asks each row of a table, and prints how many there are.
fn ask_all(lent: &impl Rt, rt: &HostRuntime, table: &str) -> Result<(), Fail> {
    let rows = fs::read_to_string(rt, table)?;
    let count = ask_rows(lent, rt, table, rows.as_str())?;
    println!(rt; "{table}: {count}")?;
    Ok(())
}

fn main(rt: HostRuntime) -> Result<(), Fail> {
    for table in env::args(&rt)?.skip(1) {
        ask_all(&rt, &rt, table.as_str())?;
    }
    Ok(())
}
