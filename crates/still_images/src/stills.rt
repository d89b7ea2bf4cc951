//! From instant to instant.

ghost use Rattle.std.specs.Prelude.{◌≡◌, ◌++◌, ◌+◌, ◌≤◌, ◌<◌, map, All, IfErr, IfOk, OnOk, length, string_bytes};
ghost use Rattle.std.specs.Arc.{arc_value};
ghost use Rattle.ass_num.specs.Limits.{max_instant, max_text_bytes};
ghost use Rattle.ass_events.specs.Histories.{HaveOwnOrders, max_live};
ghost use Rattle.ass_events.specs.LineLaws.{HasShortLines};
ghost use Rattle.ass_events.specs.Ranges.{IsEvent};
ghost use Rattle.ass_events.specs.ScriptEvents.{line_events};
ghost use Rattle.ass_events.specs.declared.event.Event.{Event};
ghost use Rattle.ass_script.specs.Ranges.{IsScript};
ghost use Rattle.frame_rate.specs.Instants.{AreInstants};
ghost use Rattle.frame_view.specs.FrameViews.{plain_frame};
ghost use Rattle.run_words.specs.Jobs.{IsStills};
ghost use Rattle.text_layout.specs.Fonts.{IsLayoutFontSet};
ghost use Rattle.text_layout.specs.Settings.{IsSetting};
ghost use Rattle.still_lists.specs.TextIndexes.{words_index};
ghost use Rattle.still_images.specs.Puts.{AreStillsListed, AreStillsShown};
ghost use Rattle.still_images.specs.Reels.{EndsInInstant, IsNewlyDrawn, IsReelFit, ShowsInstant};
ghost use Rattle.still_images.specs.Stills.{end_instant, stills_view};

use crate::fault::StillsFault;
use crate::paint::pixels_of;
use crate::reel::{Reel, Shown, is_shown, show_picture};
use ass_events::{Event, events_of};
use ass_io::Sink;
use ass_num::{Items, Mem, OutOfMemory};
use ass_script::Script;
use bdf_font::{Font, FontSet};
use frame_rate::Instants;
use frame_view::FrameView;
use local_caches::LocalCaches;
use picture_plan::plan;
use run_words::StillsJob;
use std::alloc::Global;
use std::sync::Arc;
use still_lists::{StillEntry, words_index};
use test_hook::{HookPoint, NoHook, TestHook};
use text_layout::Setting;

/// The picture at the instant `t`; `None` where its draws are those of the last one.
fn draw(
    alloc: Global,
    job: &StillsJob,
    setting: &Setting<'_>,
    events: &[Arc<Event>],
    t: u64,
    local: &mut LocalCaches,
    last: &Option<Shown>,
) -> Mem<Option<Shown>>
    requires job { IsStills job.now }
    requires setting { IsSetting setting.now }
    requires frame { setting.now.frame ≡ plain_frame job.now.size }
    requires events { All IsEvent (map arc_value events.now) }
    requires texts { All (λ (e : Event). length e.text ≤ max_text_bytes) (map arc_value events.now) }
    requires few { length events.now ≤ max_live }
    requires orders { HaveOwnOrders (map arc_value events.now) }
    requires lines { map arc_value events.now ≡ line_events setting.now.script }
    requires instant { t ≤ max_instant }
    requires same { local.old.fonts ≡ setting.now.fonts }
    ensures same { local.new.fonts ≡ local.old.fonts }
    ensures drawn { IfOk result (IsNewlyDrawn (stills_view job.now setting.now.script setting.now.fonts) t last.now) }
{
    let plan = plan(alloc, setting, events, t as i64)?;
    if is_shown(last, &plan) {
        return Ok(None);
    }
    let pixels = pixels_of(alloc, local, job.format, &job.size, &plan)?;
    Ok(Some(Shown { plan, pixels }))
}

/// Shows the instant at a place.
fn add_instant<F: Sink>(
    alloc: Global,
    job: &StillsJob,
    setting: &Setting<'_>,
    events: &[Arc<Event>],
    place: u64,
    local: &mut LocalCaches,
    reel: &mut Reel,
    frames: &mut F,
) -> Result<(), StillsFault>
    requires job { IsStills job.now }
    requires setting { IsSetting setting.now }
    requires frame { setting.now.frame ≡ plain_frame job.now.size }
    requires events { All IsEvent (map arc_value events.now) }
    requires texts { All (λ (e : Event). length e.text ≤ max_text_bytes) (map arc_value events.now) }
    requires few { length events.now ≤ max_live }
    requires orders { HaveOwnOrders (map arc_value events.now) }
    requires lines { map arc_value events.now ≡ line_events setting.now.script }
    requires place { place < job.now.instants.count }
    requires same { local.old.fonts ≡ setting.now.fonts }
    requires reel { IsReelFit job.now reel.old }
    ensures same { local.new.fonts ≡ local.old.fonts }
    ensures fit { OnOk result (IsReelFit job.now reel.new) }
    ensures whole { OnOk result (ShowsInstant (stills_view job.now setting.now.script setting.now.fonts) place reel.old reel.new
        (F.state frames.old) (F.state frames.new)) }
    ensures part { IfErr result (λ fault. EndsInInstant (stills_view job.now setting.now.script setting.now.fonts) place reel.old fault
        (F.state frames.old) (F.state frames.new)) }
{
    let t = job.instants.at(place);
    match draw(alloc, job, setting, events, t, local, &reel.shown) {
        Ok(None) => Ok(()),
        Ok(Some(shown)) => show_picture(alloc, job, events.len(), place, t, shown, reel, frames),
        Err(OutOfMemory) => Err(StillsFault::OutOfMemory),
    }
}

/// The last instant, in milliseconds.
const MAX_INSTANT: u64 = 4_000_000_000_000;

/// The end of the last instant: the next one, or the last that there is where that doesn't come before it.
#[tactic(auto, using(crate::proofs::EndLemmas::next_comes, crate::proofs::EndLemmas::none_comes))]
pub fn end_instant(instants: &Instants) -> u64
    requires { AreInstants instants.now }
    ensures { result ≡ end_instant instants.now }
{
    let rate = instants.rate;
    if instants.count < rate.frames_before(instants.from, MAX_INSTANT) {
        rate.instant_at(instants.from, instants.count)
    } else {
        MAX_INSTANT
    }
}

/// Tells the hook that the instant at a place was shown.
fn tell_hook<H: TestHook>(instants: &Instants, place: u64, hook: &H)
    requires instants { AreInstants instants.now }
    requires place { place < instants.now.count }
{
    hook.at(HookPoint::AfterFrame(instants.at(place) as i64));
}

/// Shows all instants.
fn show_all<F: Sink, H: TestHook>(
    alloc: Global,
    job: &StillsJob,
    setting: &Setting<'_>,
    events: &[Arc<Event>],
    local: &mut LocalCaches,
    frames: &mut F,
    hook: &H,
) -> Result<Items<StillEntry>, StillsFault>
    requires job { IsStills job.now }
    requires setting { IsSetting setting.now }
    requires frame { setting.now.frame ≡ plain_frame job.now.size }
    requires events { All IsEvent (map arc_value events.now) }
    requires texts { All (λ (e : Event). length e.text ≤ max_text_bytes) (map arc_value events.now) }
    requires few { length events.now ≤ max_live }
    requires orders { HaveOwnOrders (map arc_value events.now) }
    requires lines { map arc_value events.now ≡ line_events setting.now.script }
    requires same { local.old.fonts ≡ setting.now.fonts }
    ensures { AreStillsListed (stills_view job.now setting.now.script setting.now.fonts) result (F.state frames.old) (F.state frames.new) }
{
    let mut reel = Reel {
        shown: None,
        index: Items::new(alloc),
    };
    for place in 0..job.instants.count {
        match add_instant(alloc, job, setting, events, place, local, &mut reel, frames) {
            Ok(()) => tell_hook(&job.instants, place, hook),
            Err(fault) => return Err(fault),
        }
    }
    Ok(reel.index)
}

/// What is at hand for all instants.
struct Ready {
    fonts: Arc<FontSet>,
    events: Vec<Arc<Event>>,
    local: LocalCaches,
}

/// Readies a script in fonts.
fn make_ready(alloc: Global, job: &StillsJob, script: &Script, fonts: Items<Font>) -> Mem<Ready>
    requires job { IsStills job.now }
    requires script { IsScript script.now }
    requires short { HasShortLines script.now }
    requires fonts { IsLayoutFontSet fonts }
    ensures fonts { IfOk result (λ ready. (arc_value ready.fonts).fonts ≡ fonts) }
    ensures local { IfOk result (λ ready. ready.local.fonts ≡ fonts) }
    ensures lines { IfOk result (λ ready. map arc_value ready.events.items ≡ line_events script.now) }
    ensures events { IfOk result (λ ready. All IsEvent (map arc_value ready.events.items)) }
    ensures texts { IfOk result (λ ready. All (λ (e : Event). length e.text ≤ max_text_bytes) (map arc_value ready.events.items)) }
    ensures few { IfOk result (λ ready. length ready.events.items ≤ max_live) }
    ensures orders { IfOk result (λ ready. HaveOwnOrders (map arc_value ready.events.items)) }
{
    let fonts = Arc::new(alloc, FontSet { fonts })?;
    let events = events_of(alloc, script)?;
    let local = LocalCaches::open(alloc, Arc::try_clone(&fonts)?, job.budget)?;
    Ok(Ready {
        fonts,
        events,
        local,
    })
}

/// Shows a script from instant to instant with what is at hand.
fn show_ready<F: Sink, H: TestHook>(
    alloc: Global,
    job: &StillsJob,
    script: &Script,
    ready: Ready,
    frames: &mut F,
    hook: &H,
) -> Result<Items<StillEntry>, StillsFault>
    requires job { IsStills job.now }
    requires script { IsScript script.now }
    requires fonts { IsLayoutFontSet (arc_value ready.fonts).fonts }
    requires local { ready.local.fonts ≡ (arc_value ready.fonts).fonts }
    requires lines { map arc_value ready.events.items ≡ line_events script.now }
    requires events { All IsEvent (map arc_value ready.events.items) }
    requires texts { All (λ (e : Event). length e.text ≤ max_text_bytes) (map arc_value ready.events.items) }
    requires few { length ready.events.items ≤ max_live }
    requires orders { HaveOwnOrders (map arc_value ready.events.items) }
    ensures { AreStillsListed (stills_view job.now script.now (arc_value ready.fonts).fonts) result (F.state frames.old) (F.state frames.new) }
{
    let Ready {
        fonts,
        events,
        mut local,
    } = ready;
    let setting = Setting {
        script,
        fonts: &fonts,
        frame: FrameView::plain(job.size),
    };
    show_all(
        alloc,
        job,
        &setting,
        events.as_slice(),
        &mut local,
        frames,
        hook,
    )
}

/// Shows a script in fonts from instant to instant. The sink is put an image of the first picture, and of each that differs from the
/// one before it, whole or the box that changed. What comes is what a list tells of them. The hook is called after each instant.
#[tactic(auto, using(crate::proofs::ReelLemmas::none_shown))]
pub fn list_stills<F: Sink, H: TestHook>(
    alloc: Global,
    job: &StillsJob,
    script: &Script,
    fonts: Items<Font>,
    frames: &mut F,
    hook: &H,
) -> Result<Items<StillEntry>, StillsFault>
    requires job { IsStills job.now }
    requires script { IsScript script.now }
    requires short { HasShortLines script.now }
    requires fonts { IsLayoutFontSet fonts }
    ensures { AreStillsListed (stills_view job.now script.now fonts) result (F.state frames.old) (F.state frames.new) }
{
    match make_ready(alloc, job, script, fonts) {
        Ok(ready) => show_ready(alloc, job, script, ready, frames, hook),
        Err(OutOfMemory) => Err(StillsFault::OutOfMemory),
    }
}

/// The index of images.
fn index_of(alloc: Global, entries: &[StillEntry], instants: &Instants) -> Mem<String>
    requires { AreInstants instants.now }
    ensures { IfOk result (λ text. string_bytes text ≡ words_index entries.now instants.now.count (end_instant instants.now)) }
{
    words_index(alloc, entries, instants.count, end_instant(instants))
}

/// The same with their index: a line `image K place I t=MS box X1 Y1 X2 Y2` for each image, and a last one `end place N t=MS`.
#[tactic(auto, using(crate::proofs::ReelLemmas::with_index, crate::proofs::ReelLemmas::without_index))]
pub fn show_stills<F: Sink>(
    alloc: Global,
    job: &StillsJob,
    script: &Script,
    fonts: Items<Font>,
    frames: &mut F,
) -> Result<String, StillsFault>
    requires job { IsStills job.now }
    requires script { IsScript script.now }
    requires short { HasShortLines script.now }
    requires fonts { IsLayoutFontSet fonts }
    ensures { AreStillsShown (stills_view job.now script.now fonts) result (F.state frames.old) (F.state frames.new) }
{
    match list_stills(alloc, job, script, fonts, frames, &NoHook) {
        Ok(entries) => match index_of(alloc, entries.as_slice(), &job.instants) {
            Ok(text) => Ok(text),
            Err(OutOfMemory) => Err(StillsFault::OutOfMemory),
        },
        Err(fault) => Err(fault),
    }
}
