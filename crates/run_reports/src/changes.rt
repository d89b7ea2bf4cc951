//! What changes from picture to picture, told line by line.

ghost use Rattle.std.specs.Prelude.{◌≡◌, ◌≤◌, ◌<◌, ◌++◌, [], length, map, All, IfErr, IfOk, OnOk, pos, string_bytes};
ghost use Rattle.std.specs.Arc.{arc_value};
ghost use Rattle.ass_num.specs.Limits.{max_instant, max_text_bytes};
ghost use Rattle.ass_events.specs.Histories.{HaveOwnOrders, max_live};
ghost use Rattle.ass_events.specs.LineLaws.{HasShortLines};
ghost use Rattle.ass_events.specs.Ranges.{IsEvent};
ghost use Rattle.ass_events.specs.ScriptEvents.{line_events};
ghost use Rattle.ass_events.specs.declared.event.Event.{Event};
ghost use Rattle.ass_script.specs.Ranges.{IsScript};
ghost use Rattle.mask_keys.specs.Pictures.{picture};
ghost use Rattle.text_layout.specs.Fonts.{IsLayoutFontSet};
ghost use Rattle.text_layout.specs.Settings.{IsSetting};
ghost use Rattle.frame_rate.specs.Instants.{AreInstants};
ghost use Rattle.picture_plan.specs.Pictures.{AreDraws};
ghost use Rattle.run_reports.specs.ChangeStreams.{AreChangesTold, AreLinesPut, IsChangeLineIn, IsPlacePut, IsStreamEnded, IsStreamed};
ghost use Rattle.run_reports.specs.ChangeStreams.{box_member, change_in, changes_view};
ghost use Rattle.run_words.specs.Jobs.{IsChangesJob};

use crate::tell::say_memory;
use ass_events::{Event, events_of};
use ass_io::{Put, Sink};
use ass_num::{Mem, OutOfMemory};
use bdf_font::FontSet;
use frame_change::Changed;
use frame_rate::Instants;
use json::Writer;
use json_lines::{add_number, add_numbers, line_of, new_line};
use local_caches::LocalCaches;
use picture_plan::plan;
use run_status::{Ending, Inputs, Status, Which};
use run_words::{ChangesJob, ReportForm};
use single_run::{Screen, ScreenChange, blank, change_line, find_change, kind_number};
use std::alloc::Global;
use std::sync::Arc;
use text_layout::Setting;

/// Adds the box of the pixels that differ.
fn add_box(part: Option<Changed>, line: &mut Writer) -> Mem<()>
    ensures before { line.new.before ≡ line.old.before }
    ensures tokens { OnOk result (line.new.tokens ≡ line.old.tokens ++ box_member part) }
{
    line.key("box")?;
    match part {
        None => {
            line.null()?;
            Ok(())
        }
        Some(part) => {
            add_numbers(&[part.x1, part.y1, part.x2, part.y2], line)?;
            Ok(())
        }
    }
}

/// The line on an instant as JSON.
fn change_json(alloc: Global, t: u64, change: &ScreenChange) -> Mem<String>
    ensures { IfOk result (λ text. string_bytes text ≡ change_in ReportForm.Json t change.now) }
{
    let mut line = new_line(alloc);
    line.begin_object()?;
    add_number("t", t, &mut line)?;
    add_number("change", u64::from(kind_number(change.kind)), &mut line)?;
    add_box(change.part, &mut line)?;
    line.end_object()?;
    line_of(line)
}

/// The line on an instant in a form.
fn change_in(alloc: Global, form: ReportForm, t: u64, change: &ScreenChange) -> Mem<String>
    ensures { IfOk result (λ text. string_bytes text ≡ change_in form t change.now) }
{
    match form {
        ReportForm::Text => change_line(alloc, t, change.kind, change.part),
        ReportForm::Json => change_json(alloc, t, change),
        ReportForm::Silent => Ok(String::new(alloc)),
    }
}

/// Shows the picture at an instant, and gives the line on it.
fn line_at(
    alloc: Global,
    form: ReportForm,
    setting: &Setting<'_>,
    events: &[Arc<Event>],
    t: u64,
    local: &mut LocalCaches,
    screen: &mut Screen,
) -> Mem<String>
    requires setting { IsSetting setting.now }
    requires events { All IsEvent (map arc_value events.now) }
    requires texts { All (λ (e : Event). length e.text ≤ max_text_bytes) (map arc_value events.now) }
    requires few { length events.now ≤ max_live }
    requires orders { HaveOwnOrders (map arc_value events.now) }
    requires instant { t ≤ max_instant }
    requires same { local.old.fonts ≡ setting.now.fonts }
    requires screen { screen.old.canvas ≡ picture setting.now.fonts setting.now.frame.size screen.old.plan.draws }
    ensures same { local.new.fonts ≡ local.old.fonts }
    ensures screen { OnOk result (screen.new.canvas ≡ picture setting.now.fonts setting.now.frame.size screen.new.plan.draws) }
    ensures draws { OnOk result (AreDraws setting.now.script setting.now.fonts (map arc_value events.now) (pos t) setting.now.frame screen.new.plan.draws) }
    ensures line { IfOk result (λ line. IsChangeLineIn form setting.now.fonts setting.now.frame.size t screen.old.plan.draws screen.new.plan.draws
        (string_bytes line)) }
{
    let plan = plan(alloc, setting, events, t as i64)?;
    let change = find_change(alloc, local, &setting.frame.size, plan, screen)?;
    change_in(alloc, form, t, &change)
}

/// Puts the line on the instant at a place.
fn put_place<R: Sink>(
    alloc: Global,
    form: ReportForm,
    setting: &Setting<'_>,
    events: &[Arc<Event>],
    instants: &Instants,
    place: u64,
    local: &mut LocalCaches,
    screen: &mut Screen,
    report: &mut R,
) -> Put
    requires setting { IsSetting setting.now }
    requires events { All IsEvent (map arc_value events.now) }
    requires texts { All (λ (e : Event). length e.text ≤ max_text_bytes) (map arc_value events.now) }
    requires few { length events.now ≤ max_live }
    requires orders { HaveOwnOrders (map arc_value events.now) }
    requires known { map arc_value events.now ≡ line_events setting.now.script }
    requires instants { AreInstants instants.now }
    requires place { place < instants.now.count }
    requires same { local.old.fonts ≡ setting.now.fonts }
    requires screen { screen.old.canvas ≡ picture setting.now.fonts setting.now.frame.size screen.old.plan.draws }
    ensures same { local.new.fonts ≡ local.old.fonts }
    ensures screen { result ≡ Put.Done → screen.new.canvas ≡ picture setting.now.fonts setting.now.frame.size screen.new.plan.draws }
    ensures put { IsPlacePut (changes_view form setting.now.script setting.now.fonts instants.now setting.now.frame) place
        screen.old.plan.draws screen.new.plan.draws result (R.state report.old) (R.state report.new) }
{
    match line_at(
        alloc,
        form,
        setting,
        events,
        instants.at(place),
        local,
        screen,
    ) {
        Ok(line) => report.put(line.as_bytes()),
        Err(OutOfMemory) => Put::OutOfMemory,
    }
}

/// Puts the lines on all instants, up to one that isn't put whole.
fn put_places<R: Sink>(
    alloc: Global,
    form: ReportForm,
    setting: &Setting<'_>,
    events: &[Arc<Event>],
    instants: &Instants,
    local: &mut LocalCaches,
    screen: &mut Screen,
    report: &mut R,
) -> Put
    requires setting { IsSetting setting.now }
    requires events { All IsEvent (map arc_value events.now) }
    requires texts { All (λ (e : Event). length e.text ≤ max_text_bytes) (map arc_value events.now) }
    requires few { length events.now ≤ max_live }
    requires orders { HaveOwnOrders (map arc_value events.now) }
    requires known { map arc_value events.now ≡ line_events setting.now.script }
    requires instants { AreInstants instants.now }
    requires same { local.old.fonts ≡ setting.now.fonts }
    requires none { screen.old.plan.draws ≡ [] }
    requires screen { screen.old.canvas ≡ picture setting.now.fonts setting.now.frame.size screen.old.plan.draws }
    ensures { AreLinesPut (changes_view form setting.now.script setting.now.fonts instants.now setting.now.frame) result
        (R.state report.old) (R.state report.new) }
{
    for place in 0..instants.count {
        match put_place(
            alloc, form, setting, events, instants, place, local, screen, report,
        ) {
            Put::Done => {}
            Put::Failed => return Put::Failed,
            Put::OutOfMemory => return Put::OutOfMemory,
        }
    }
    Put::Done
}

/// Puts the lines on what changes in the pictures of a script in fonts.
fn put_changes<R: Sink>(
    alloc: Global,
    form: ReportForm,
    changes: &ChangesJob,
    inputs: Inputs,
    report: &mut R,
) -> Mem<Put>
    requires changes { IsChangesJob changes.now }
    requires script { IsScript inputs.script }
    requires short { HasShortLines inputs.script }
    requires fonts { IsLayoutFontSet inputs.fonts }
    ensures put { IfOk result (λ answer. AreLinesPut (changes_view form inputs.script inputs.fonts changes.now.instants changes.now.view) answer
        (R.state report.old) (R.state report.new)) }
    ensures none { IfErr result (λ _. report.new ≡ report.old) }
{
    let Inputs { script, fonts } = inputs;
    let fonts = Arc::new(alloc, FontSet { fonts })?;
    let events = events_of(alloc, &script)?;
    let mut local = LocalCaches::open(alloc, Arc::try_clone(&fonts)?, changes.budget)?;
    let mut screen = blank(alloc, &changes.view.size)?;
    let setting = Setting {
        script: &script,
        fonts: &fonts,
        frame: changes.view,
    };
    let events = events.as_slice();
    let instants = &changes.instants;
    Ok(put_places(
        alloc,
        form,
        &setting,
        events,
        instants,
        &mut local,
        &mut screen,
        report,
    ))
}

/// How a run ends whose lines were put so.
fn ended<R: Sink>(form: ReportForm, answer: Put, report: &mut R) -> Ending
    ensures { IsStreamEnded form answer (R.state report.old) (R.state report.new) result }
{
    match answer {
        Put::Done => Ending::As(Status::Done),
        Put::Failed => Ending::As(Status::WriteFault(Which::Report)),
        Put::OutOfMemory => say_memory(form, report),
    }
}

/// Tells line by line what changes in the pictures of a script in fonts.
fn stream<R: Sink>(
    alloc: Global,
    form: ReportForm,
    changes: &ChangesJob,
    inputs: Inputs,
    report: &mut R,
) -> Ending
    requires changes { IsChangesJob changes.now }
    requires script { IsScript inputs.script }
    requires short { HasShortLines inputs.script }
    requires fonts { IsLayoutFontSet inputs.fonts }
    ensures { IsStreamed (changes_view form inputs.script inputs.fonts changes.now.instants changes.now.view) (R.state report.old) (R.state report.new) result }
{
    match put_changes(alloc, form, changes, inputs, report) {
        Ok(answer) => ended(form, answer, report),
        Err(OutOfMemory) => say_memory(form, report),
    }
}

/// Tells in a form what changes in the pictures of a script in fonts: a line for each instant, as soon as it is known. In
/// the silent form it compares nothing.
pub fn tell_changes<R: Sink>(
    alloc: Global,
    form: ReportForm,
    changes: &ChangesJob,
    inputs: Inputs,
    report: &mut R,
) -> Ending
    requires changes { IsChangesJob changes.now }
    requires script { IsScript inputs.script }
    requires short { HasShortLines inputs.script }
    requires fonts { IsLayoutFontSet inputs.fonts }
    ensures { AreChangesTold (changes_view form inputs.script inputs.fonts changes.now.instants changes.now.view)
        (R.state report.old) (R.state report.new) result }
{
    match form {
        ReportForm::Text | ReportForm::Json => stream(alloc, form, changes, inputs, report),
        ReportForm::Silent => Ending::As(Status::Done),
    }
}
