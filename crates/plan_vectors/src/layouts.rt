//! The layouts of events, and the matrices of clips.

ghost use Rattle.std.specs.Prelude.{◌≤◌, length, IfOk};
ghost use Rattle.ass_num.specs.Limits.{IsFrameSize, max_frame_side, max_text_bytes};
ghost use Rattle.ass_script.specs.Ranges.{IsScript, IsScriptHeader};
ghost use Rattle.ass_events.specs.Ranges.{IsEvent};
ghost use Rattle.override_tags.specs.Views.{IsView};
ghost use Rattle.text_layout.specs.Fonts.{IsLayoutFontSet};
ghost use Rattle.text_layout.specs.Settings.{IsSetting};

use crate::inputs::{event_of, script_of, view_of};
use crate::telling::show_numbers;
use crate::unreadable;
use ass_events::Event;
use ass_num::{Matrix, Size};
use ass_script::Script;
use bdf_font::FontSet;
use frame_view::{FrameView, scales_of};
use override_tags::EventView;
use std::alloc::Global;
use std::io;
use text_layout::{
    Laid, Line, Placed, Setting, anchor, block_corner, clip_matrix, layout, line_scales,
};

/// The script of a head and a Dialogue line of ten seconds that ends so, from its left margin on.
fn script_of_line(alloc: Global, head: &str, tail: &str) -> io::Result<Script>
    ensures { IfOk result IsScript }
{
    let text = format!(in alloc;
        "{head}[Events]\nDialogue: 0,0:00:00.00,0:00:10.00,Default,,{tail}\n"
    )?;
    script_of(alloc, text.as_str())
}

/// The items of a layout: where the pen stands before each, and how far each advances it.
fn pens_of(alloc: Global, placed: &[Placed]) -> io::Result<String> {
    let mut text = String::new(alloc);
    for item in placed {
        let pen = format!(in alloc; " {}+{}", item.x, item.advance)?;
        text.push_str(pen.as_str())?;
    }
    Ok(text)
}

/// Prints the items of a line, its width and height, its left and upper edge and its baseline.
fn show_line(rt: &HostRuntime, line: &Line) -> io::Result<()> {
    println!(rt; "  items {}..{}", line.first, line.last)?;
    let numbers = [line.width, line.height, line.left, line.top, line.baseline];
    show_numbers(rt, "   ", &numbers)
}

/// Prints the lines of a layout and the pens of its items.
fn show_laid(rt: &HostRuntime, laid: &Laid) -> io::Result<()> {
    for line in laid.lines.as_slice() {
        show_line(rt, line)?;
    }
    let pens = pens_of(rt.alloc(), laid.placed.as_slice())?;
    println!(rt; "  pens{pens}")
}

/// Prints how large the block of an event is, where it stands and by which anchor, and its layout.
fn show_event(
    rt: &HostRuntime,
    setting: &Setting<'_>,
    event: &Event,
    view: &EventView,
) -> io::Result<()>
    requires setting { IsSetting setting.now }
    requires event { IsEvent event.now }
    requires view { IsView view.now }
{
    match layout(rt.alloc(), setting, event, view) {
        Ok(laid) => {
            let scales = line_scales(&setting.script.header(), &setting.frame, view);
            let at = anchor(setting.script, event, view, &scales);
            let corner = block_corner(at, view.align, laid.width, laid.height);
            let numbers = [laid.width, laid.height, corner.x, corner.y, at.x, at.y];
            show_numbers(rt, "  block", &numbers)?;
            show_laid(rt, &laid)
        }
        Err(_) => Err(unreadable()),
    }
}

/// A number of a row, at most the longest side of a frame.
fn number(word: &str) -> u32
    ensures { result ≤ max_frame_side }
{
    word.parse::<u32>().unwrap_or(0).min(4_096)
}

/// Prints the layout of a script's event.
fn show_of_script(rt: &HostRuntime, setting: &Setting<'_>, event: &Event) -> io::Result<()>
    requires setting { IsSetting setting.now }
    requires event { IsEvent event.now }
    requires few { length event.now.text ≤ max_text_bytes }
{
    let view = view_of(rt.alloc(), setting.script, event)?;
    show_event(rt, setting, event, &view)
}

/// Prints the layout of a script's first line.
fn show_script(rt: &HostRuntime, setting: &Setting<'_>) -> io::Result<()>
    requires setting { IsSetting setting.now }
{
    let event = event_of(rt.alloc(), setting.script)?;
    show_of_script(rt, setting, &event)
}

fn show_title(rt: &HostRuntime, tail: &str, size: &Size) -> io::Result<()> {
    println!(rt; "{tail} at {} by {}", size.w, size.h)
}

/// Prints the layout of an event that ends so, in a script of this head and a frame of this size.
fn show(rt: &HostRuntime, fonts: &FontSet, head: &str, tail: &str, size: &Size) -> io::Result<()>
    requires fonts { IsLayoutFontSet fonts.now.fonts }
    requires size { IsFrameSize size.now }
{
    show_title(rt, tail, size)?;
    let script = script_of_line(rt.alloc(), head, tail)?;
    let setting = Setting {
        script: &script,
        fonts,
        frame: FrameView::plain(*size),
    };
    show_script(rt, &setting)
}

/// The matrix of a clip's drawing.
fn clip(alloc: Global, head: &str, scale: u32) -> io::Result<Matrix> {
    let script = script_of_line(alloc, head, "0,0,0,,")?;
    let frame = FrameView::plain(Size { w: 96, h: 32 });
    let scales = scales_of(&script.header(), &frame, true);
    Ok(clip_matrix(&scales, scale.min(30)))
}

fn show_clip(rt: &HostRuntime, head: &str, scale: u32) -> io::Result<()> {
    let m = clip(rt.alloc(), head, scale)?;
    show_numbers(rt, "clip", &[i64::from(scale), m.ux, m.uy])
}

/// Prints a row: the layout of what ends a line, in a frame of this width and height; or the matrix of a clip of this scale, where they
/// are missing.
fn show_row(rt: &HostRuntime, fonts: &FontSet, head: &str, row: &str) -> io::Result<()>
    requires { IsLayoutFontSet fonts.now.fonts }
{
    let (numbers, tail) = row.split_once(' ').ok_or(unreadable())?;
    match numbers.split_once('x') {
        Some((w, h)) => {
            let size = Size {
                w: number(w),
                h: number(h),
            };
            show(rt, fonts, head, tail, &size)
        }
        None => show_clip(rt, head, number(tail)),
    }
}

/// Prints rows of scripts with this head: breaks and spaces, texts without anything in their lines, clusters, a drawing,
/// each wrap style on a text of three lines, margins, missing glyphs, scales of 0 and below, and each alignment where halves are odd.
pub fn show_layouts(rt: &HostRuntime, fonts: &FontSet, head: &str, rows: &str) -> io::Result<()>
    requires { IsLayoutFontSet fonts.now.fonts }
{
    for row in rows.lines() {
        show_row(rt, fonts, head, row)?;
    }
    Ok(())
}
