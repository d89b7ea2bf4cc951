//! The report on what changes from picture to picture.

ghost use Rattle.std.specs.Prelude.{◌≡◌, ◌++◌, ◌≤◌, ◌<◌, ℕ, List, length, map, All, IfOk, OnOk, pos, string_bytes};
ghost use Rattle.std.specs.Arc.{arc_value};
ghost use Rattle.ass_num.specs.Limits.{max_instant, max_text_bytes};
ghost use Rattle.ass_events.specs.Histories.{HaveOwnOrders, max_live};
ghost use Rattle.ass_events.specs.Ranges.{IsEvent};
ghost use Rattle.ass_events.specs.declared.event.Event.{Event};
ghost use Rattle.ass_script.specs.Ranges.{IsScript};
ghost use Rattle.evict_core.specs.Machine.{max_budget};
ghost use Rattle.mask_keys.specs.declared.plans.Draw.{Draw};
ghost use Rattle.mask_keys.specs.Pictures.{picture};
ghost use Rattle.frame_view.specs.FrameViews.{IsFrameView};
ghost use Rattle.picture_plan.specs.Pictures.{AreDraws};
ghost use Rattle.ass_events.specs.LineLaws.{HasShortLines};
ghost use Rattle.text_layout.specs.Fonts.{IsLayoutFontSet};
ghost use Rattle.text_layout.specs.Settings.{IsSetting};
ghost use Rattle.frame_rate.specs.Instants.{AreInstants};
ghost use Rattle.single_run.specs.ChangeReports.{AreChangeLines, IsChangeLine, IsChangesReport};

use crate::screen::{Screen, blank, show};
use ass_events::{Event, events_of};
use ass_num::{Items, Mem};
use ass_script::Script;
use bdf_font::{Font, FontSet};
use frame_rate::Instants;
use frame_view::FrameView;
use local_caches::LocalCaches;
use picture_plan::plan;
use std::alloc::Global;
use std::sync::Arc;
use text_layout::Setting;

/// Adds the line on an instant, and shows its picture.
fn add_instant(
    alloc: Global,
    setting: &Setting<'_>,
    events: &[Arc<Event>],
    t: u64,
    local: &mut LocalCaches,
    screen: &mut Screen,
    report: &mut String,
) -> Mem<()>
    requires setting { IsSetting setting.now }
    requires events { All IsEvent (map arc_value events.now) }
    requires texts { All (λ (e : Event). length e.text ≤ max_text_bytes) (map arc_value events.now) }
    requires few { length events.now ≤ max_live }
    requires orders { HaveOwnOrders (map arc_value events.now) }
    requires instant { t ≤ max_instant }
    requires same { local.old.fonts ≡ setting.now.fonts }
    requires screen { screen.old.canvas ≡ picture setting.now.fonts setting.now.frame.size screen.old.plan.draws }
    ensures same { local.new.fonts ≡ local.old.fonts }
    ensures screen { OnOk result (screen.new.canvas ≡ picture setting.now.fonts setting.now.frame.size screen.new.plan.draws) }
    ensures draws { OnOk result (AreDraws setting.now.script setting.now.fonts (map arc_value events.now) (pos t) setting.now.frame screen.new.plan.draws) }
    ensures line { OnOk result ((line : List ℕ) × IsChangeLine setting.now.fonts setting.now.frame.size t screen.old.plan.draws screen.new.plan.draws line
        × (string_bytes report.new ≡ string_bytes report.old ++ line)) }
{
    let plan = plan(alloc, setting, events, t as i64)?;
    let line = show(alloc, local, &setting.frame.size, t, plan, screen)?;
    report.push_str(line.as_str())?;
    Ok(())
}

/// The lines on all instants.
#[tactic(auto, using(crate::proofs::LineLemmas::no_lines, crate::proofs::LineLemmas::next_lines, crate::proofs::ChangePictures::blank_picture))]
fn lines_of(
    alloc: Global,
    setting: &Setting<'_>,
    events: &[Arc<Event>],
    instants: &Instants,
    local: &mut LocalCaches,
) -> Mem<String>
    requires setting { IsSetting setting.now }
    requires events { All IsEvent (map arc_value events.now) }
    requires texts { All (λ (e : Event). length e.text ≤ max_text_bytes) (map arc_value events.now) }
    requires few { length events.now ≤ max_live }
    requires orders { HaveOwnOrders (map arc_value events.now) }
    requires instants { AreInstants instants.now }
    requires same { local.old.fonts ≡ setting.now.fonts }
    ensures { IfOk result (λ text. (last : List Draw)
        × AreChangeLines setting.now.script setting.now.fonts (map arc_value events.now) instants.now setting.now.frame instants.now.count last
        (string_bytes text)) }
{
    let mut screen = blank(alloc, &setting.frame.size)?;
    let mut report = String::new(alloc);
    for place in 0..instants.count {
        let t = instants.at(place);
        add_instant(alloc, setting, events, t, local, &mut screen, &mut report)?;
    }
    Ok(report)
}

/// The report on what changes in the picture of a script in fonts from instant to instant: a line
/// `t=MS change=C box X1 Y1 X2 Y2`, or `box none`, for each instant, against the one before it, and for the first against no
/// draws on black.
pub fn changes_report(
    alloc: Global,
    script: &Script,
    fonts: Items<Font>,
    instants: &Instants,
    view: &FrameView,
    budget: u64,
) -> Mem<String>
    requires script { IsScript script.now }
    requires short { HasShortLines script.now }
    requires fonts { IsLayoutFontSet fonts }
    requires instants { AreInstants instants.now }
    requires view { IsFrameView view.now }
    requires budget { budget ≤ max_budget }
    ensures { IfOk result (λ text. IsChangesReport script.now fonts instants.now view.now (string_bytes text)) }
{
    let fonts = Arc::new(alloc, FontSet { fonts })?;
    let events = events_of(alloc, script)?;
    let mut local = LocalCaches::open(alloc, Arc::try_clone(&fonts)?, budget)?;
    let setting = Setting {
        script,
        fonts: &fonts,
        frame: *view,
    };
    lines_of(alloc, &setting, events.as_slice(), instants, &mut local)
}
