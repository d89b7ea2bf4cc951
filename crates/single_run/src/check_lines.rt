//! The report of a check.

ghost use Rattle.std.specs.Prelude.{◌≡◌, ◌++◌, ◌<◌, length, IfOk, Some, OnOk, string_bytes};
ghost use Rattle.ass_events.specs.Events.{line_fault};
ghost use Rattle.single_run.specs.CheckReports.{check_text, font_report, font_reports, head_lines, malformed_line, malformed_lines};

use ass_events::line_fault;
use ass_num::Mem;
use ass_script::{EventField, Script};
use bdf_font::Font;
use run_status::field_name;
use std::alloc::Global;

/// The lines on the script's resolution, styles and Dialogue lines.
fn head_lines(alloc: Global, script: &Script) -> Mem<String>
    ensures { IfOk result (λ text. string_bytes text ≡ head_lines script.now) }
{
    let x = script.header().res_x;
    let y = script.header().res_y;
    let styles = script.styles().len();
    let lines = script.line_count();
    Ok(format!(in alloc; "play {x} {y}\nstyles {styles}\nlines {lines}\n")?)
}

/// The line on a Dialogue line whose field can't be read.
fn malformed_line(alloc: Global, i: usize, field: EventField, place: usize) -> Mem<String>
    ensures { IfOk result (λ text. string_bytes text ≡ malformed_line i (Some (field, place))) }
{
    let name = field_name(field);
    Ok(format!(in alloc; "malformed {i} {name} {place}\n")?)
}

/// Adds the line on a Dialogue line, if that one is malformed.
fn add_malformed(alloc: Global, script: &Script, i: usize, report: &mut String) -> Mem<()>
    requires { i < length script.now.lines }
    ensures { OnOk result (string_bytes report.new ≡ string_bytes report.old ++ malformed_line i (line_fault script.now i)) }
{
    if let Some((field, place)) = line_fault(script, i) {
        let line = malformed_line(alloc, i, field, place)?;
        report.push_str(line.as_str())?;
    }
    Ok(())
}

/// Adds the lines on all malformed Dialogue lines.
fn add_all_malformed(alloc: Global, script: &Script, report: &mut String) -> Mem<()>
    ensures { OnOk result (string_bytes report.new ≡ string_bytes report.old ++ malformed_lines script.now) }
{
    for i in 0..script.line_count() {
        add_malformed(alloc, script, i, report)?;
    }
    Ok(())
}

/// Adds the line on a font.
fn add_font(alloc: Global, i: usize, font: &Font, report: &mut String) -> Mem<()>
    ensures { OnOk result (string_bytes report.new ≡ string_bytes report.old ++ font_report i font.now) }
{
    let glyphs = font.glyph_count();
    let line = format!(in alloc; "font {i} glyphs {glyphs}\n")?;
    report.push_str(line.as_str())?;
    Ok(())
}

/// Adds the lines on all fonts.
fn add_fonts(alloc: Global, fonts: &[Font], report: &mut String) -> Mem<()>
    ensures { OnOk result (string_bytes report.new ≡ string_bytes report.old ++ font_reports 0 fonts.now) }
{
    for (i, font) in fonts.iter().enumerate() {
        add_font(alloc, i, font, report)?;
    }
    Ok(())
}

/// The report on a script and fonts: `play X Y` with the script's resolution, `styles N`, `lines N`, a line
/// `malformed I FIELD PLACE` for each Dialogue line I, from 0, that can't be read, with the first field that refuses and
/// the byte at which it does, and a line `font I glyphs N` for each font.
#[tactic(auto, unfolding(crate::specs::CheckReports::check_text))]
pub fn check_report(alloc: Global, script: &Script, fonts: &[Font]) -> Mem<String>
    ensures { IfOk result (λ text. string_bytes text ≡ check_text script.now fonts.now) }
{
    let mut report = head_lines(alloc, script)?;
    add_all_malformed(alloc, script, &mut report)?;
    add_fonts(alloc, fonts, &mut report)?;
    Ok(report)
}
