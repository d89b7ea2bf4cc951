//! The plans of scripts.

ghost use Rattle.text_layout.specs.Fonts.{IsLayoutFontSet};

use crate::draws::show_draw;
use crate::inputs::script_of;
use crate::unreadable;
use ass_events::events_of;
use ass_num::Size;
use bdf_font::FontSet;
use frame_view::FrameView;
use picture_plan::plan;
use std::alloc::Global;
use std::io;
use text_layout::Setting;

/// The text of a script with these Dialogue lines.
fn script_text(alloc: Global, head: &str, lines: &str) -> io::Result<String> {
    let mut text = String::from_str(alloc, head)?;
    for line in lines.lines() {
        text.push_str("Dialogue: ")?;
        text.push_str(line)?;
        text.push('\n')?;
    }
    Ok(text)
}

/// Prints the draws of these lines at an instant.
fn show_plan(rt: &HostRuntime, fonts: &FontSet, head: &str, t: u16, lines: &str) -> io::Result<()>
    requires { IsLayoutFontSet fonts.now.fonts }
{
    let alloc = rt.alloc();
    let text = script_text(alloc, head, lines)?;
    let script = script_of(alloc, text.as_str())?;
    let Ok(events) = events_of(alloc, &script) else {
        return Err(unreadable());
    };
    let setting = Setting {
        script: &script,
        fonts,
        frame: FrameView::plain(Size { w: 48, h: 32 }),
    };
    let Ok(made) = plan(alloc, &setting, events.as_slice(), i64::from(t)) else {
        return Err(unreadable());
    };
    for draw in made.draws.as_slice() {
        show_draw(rt, draw)?;
    }
    Ok(())
}

/// Prints a row: an instant, and behind it the Dialogue lines of a script, each from its layer on.
fn show_row(rt: &HostRuntime, fonts: &FontSet, head: &str, row: &str) -> io::Result<()>
    requires { IsLayoutFontSet fonts.now.fonts }
{
    let (instant, lines) = row.split_once('\n').ok_or(unreadable())?;
    println!(rt; "at {instant}")?;
    for line in lines.lines() {
        println!(rt; "{line}")?;
    }
    show_plan(rt, fonts, head, instant.parse::<u16>().unwrap_or(0), lines)
}

/// Prints rows between empty lines: what is shown and what isn't; borders, shadows, boxes, runs without a pixel; sweeps, over two lines
/// and turned; syllables whose border comes later; an origin; clips; events that stand clear of one another, of a line that has ended, in
/// layers of their own, and at points; parts so far outside that they are left out, and just not so far; and three events of which one
/// matters, two, or one beside another layer.
pub fn show_plans(rt: &HostRuntime, fonts: &FontSet, head: &str, rows: &str) -> io::Result<()>
    requires { IsLayoutFontSet fonts.now.fonts }
{
    for row in rows.split("\n\n") {
        show_row(rt, fonts, head, row)?;
    }
    Ok(())
}
