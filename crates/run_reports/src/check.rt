//! The report of a check in each form.

ghost use Rattle.std.specs.Prelude.{◌≡◌, ◌++◌, ◌<◌, length, IfOk, IsOk, Some, OnOk, string_bytes};
ghost use Rattle.ass_events.specs.Events.{line_fault};
ghost use Rattle.run_reports.specs.CheckObjects.{check_in, check_json, fonts_member, font_object, head_members, malformed_member, malformed_object};

use ass_events::line_fault;
use ass_num::Mem;
use ass_script::{EventField, Script};
use bdf_font::Font;
use json::Writer;
use json_lines::{add_number, add_numbers, add_text, line_of, new_line};
use run_status::field_name;
use run_words::ReportForm;
use single_run::check_report;
use std::alloc::Global;

/// Adds the script's resolution, styles and Dialogue lines.
fn add_head(script: &Script, line: &mut Writer) -> Mem<()>
    ensures before { line.new.before ≡ line.old.before }
    ensures tokens { OnOk result (line.new.tokens ≡ line.old.tokens ++ head_members script.now) }
{
    let header = script.header();
    line.key("play")?;
    add_numbers(&[header.res_x, header.res_y], line)?;
    add_number("styles", script.styles().len() as u64, line)?;
    add_number("lines", script.line_count() as u64, line)?;
    Ok(())
}

/// Adds a Dialogue line whose field can't be read.
fn add_fault(i: usize, field: EventField, place: usize, line: &mut Writer) -> Mem<()>
    ensures before { line.new.before ≡ line.old.before }
    ensures tokens { OnOk result (line.new.tokens ≡ line.old.tokens ++ malformed_object i (Some (field, place))) }
{
    line.begin_object()?;
    add_number("line", i as u64, line)?;
    add_text("field", field_name(field), line)?;
    add_number("byte", place as u64, line)?;
    line.end_object()?;
    Ok(())
}

/// Adds a Dialogue line, if that one is malformed.
fn add_malformed(script: &Script, i: usize, line: &mut Writer) -> Mem<()>
    requires { i < length script.now.lines }
    ensures before { line.new.before ≡ line.old.before }
    ensures tokens { OnOk result (line.new.tokens ≡ line.old.tokens ++ malformed_object i (line_fault script.now i)) }
{
    match line_fault(script, i) {
        Some((field, place)) => add_fault(i, field, place, line),
        None => Ok(()),
    }
}

/// Adds all malformed Dialogue lines.
fn add_all_malformed(script: &Script, line: &mut Writer) -> Mem<()>
    ensures before { line.new.before ≡ line.old.before }
    ensures tokens { OnOk result (line.new.tokens ≡ line.old.tokens ++ malformed_member script.now) }
{
    line.key("malformed")?;
    line.begin_array()?;
    for i in 0..script.line_count() {
        add_malformed(script, i, line)?;
    }
    line.end_array()?;
    Ok(())
}

/// Adds a font.
fn add_font(font: &Font, line: &mut Writer) -> Mem<()>
    ensures before { line.new.before ≡ line.old.before }
    ensures tokens { OnOk result (line.new.tokens ≡ line.old.tokens ++ font_object font.now) }
{
    line.begin_object()?;
    add_number("glyphs", font.glyph_count() as u64, line)?;
    line.end_object()?;
    Ok(())
}

/// Adds all fonts.
fn add_fonts(fonts: &[Font], line: &mut Writer) -> Mem<()>
    ensures before { line.new.before ≡ line.old.before }
    ensures tokens { OnOk result (line.new.tokens ≡ line.old.tokens ++ fonts_member fonts.now) }
{
    line.key("fonts")?;
    line.begin_array()?;
    for font in fonts {
        add_font(font, line)?;
    }
    line.end_array()?;
    Ok(())
}

/// The report on a script and fonts as an object in one line: `play`, an array of the script's resolution; `styles` and
/// `lines`; `malformed`, an array with an object for each Dialogue line that can't be read: its `line`, the first `field` that
/// refuses and the `byte` at which it does; and `fonts`, an array with an object for each font, of its `glyphs`.
fn check_json(alloc: Global, script: &Script, fonts: &[Font]) -> Mem<String>
    ensures { IfOk result (λ text. string_bytes text ≡ check_json script.now fonts.now) }
{
    let mut line = new_line(alloc);
    line.begin_object()?;
    add_head(script, &mut line)?;
    add_all_malformed(script, &mut line)?;
    add_fonts(fonts, &mut line)?;
    line.end_object()?;
    line_of(line)
}

/// The report on a script and fonts in a form. The silent one takes no memory.
pub fn check_in(alloc: Global, form: ReportForm, script: &Script, fonts: &[Font]) -> Mem<String>
    ensures text { IfOk result (λ text. string_bytes text ≡ check_in form script.now fonts.now) }
    ensures silent { form ≡ ReportForm.Silent → IsOk result }
{
    match form {
        ReportForm::Text => check_report(alloc, script, fonts),
        ReportForm::Json => check_json(alloc, script, fonts),
        ReportForm::Silent => Ok(String::new(alloc)),
    }
}
