//! The world: what it is, and its steps.
ghost use Rattle.std.specs.Prelude.{◌≡◌, ◌≤◌, ◌<◌, ℕ, All, IfErr, IfOk, IsOk, Ok, [], length, take};
ghost use Rattle.std.specs.Arc.{arc_value};
ghost use Rattle.ass_events.specs.Events.{event_of};
ghost use Rattle.ass_events.specs.Histories.{flushed};
ghost use Rattle.ass_num.specs.Limits.{IsFrameSize, IsWithin, max_instant, max_text_bytes};
ghost use Rattle.ass_script.specs.Ranges.{IsScript};
ghost use Rattle.evict_core.specs.Machine.{max_budget, max_entries};
ghost use Rattle.flight_cache.specs.Meaning.{shard_count};
ghost use Rattle.mask_keys.specs.Keys.{IsValidComposite, IsValidMask, IsValidRegion};
ghost use Rattle.mask_keys.specs.Outlines.{glyph_counts};
ghost use Rattle.text_layout.specs.Fonts.{IsLayoutFontSet};
ghost use Rattle.track_history.specs.Answers.{flush_answer};
ghost use Rattle.world_core.specs.Caches.{asked};
ghost use Rattle.world_core.specs.Keys.{IsValidWorldKey, equal_world_keys, world_meaning};
ghost use Rattle.world_core.specs.Histories.{opening_limits};
ghost use Rattle.world_core.specs.Laws.{KeepsLaws};
ghost use Rattle.world_core.specs.Made.{IsMade, IsMadeBy};
ghost use Rattle.world_core.specs.Records.{BeginsWithLooks, IsRecorded};
ghost use Rattle.world_core.specs.Runs.{IsRunOf, ShowPicturesOfFirst};
ghost use Rattle.world_core.specs.States.{LookState, WorldState, opening_world, with_look};
ghost use Rattle.world_core.specs.Steps.{TakesNoMemory, after_chunk, after_step, held_key};
ghost use Rattle.world_core.specs.Replies.{AreReplies, IsAskReply, IsFedReply, IsLookReply, IsReply, IsShowReply};
ghost use Rattle.world_core.specs.Tellings.{IsValidStep, IsWorld, TellsLook, TellsWorld, WorldTag};
ghost use Rattle.world_core.specs.declared.steps.Reply.TheVariants as reply;
ghost use Rattle.world_core.specs.declared.steps.Step.TheVariants as step;

use crate::caching::{ask, fail, fill, open_caches, set_limits, unpin};
use crate::looking::{ActorLook, feed, flush, look_at};
use crate::painting::pixels_of;
use crate::steps::{Reply, Step};
use crate::{ActorCaches, WorldKey, WorldMade};
use ass_events::Chunk;
use ass_num::{Mem, Size};
use ass_script::Script;
use bdf_font::FontSet;
use frame_view::FrameView;
use mask_keys::{CompositeKey, MaskKey, RegionKey, key_copy, mask_key_copy, region_key_copy};
use std::alloc::Global;
use std::collections::BTreeMap;
use std::sync::Arc;
use test_hook::ValueKind;
use text_layout::Setting;
use track_history::LiveEvents;

/// A track, twelve shards, and of each actor its last look, its tickets and its pins.
#[derive(Drop)]
pub struct World {
    script: Arc<Script>,
    fonts: Arc<FontSet>,
    track: LiveEvents,
    caches: ActorCaches<WorldMade>,
    looks: BTreeMap<u32, ActorLook>,
}

/// A world without events, entries, looks, tickets and pins. Each kind has four shards, with their parts of the budget, at most
/// 2^40, and of the entries that go with it.
pub fn open(alloc: Global, script: Arc<Script>, fonts: Arc<FontSet>, budget: u64) -> Mem<World>
    requires script { IsScript (arc_value script) }
    requires fonts { IsLayoutFontSet (arc_value fonts).fonts }
    requires budget { budget ≤ max_budget }
    ensures script { IfOk result (λ w. w.script ≡ script) }
    ensures fonts { IfOk result (λ w. w.fonts ≡ fonts) }
    ensures state { IfOk result (λ w. TellsWorld w (opening_world fonts budget)) }
    ensures recorded { IfOk result (λ _. IsRecorded world_meaning (opening_world fonts budget) (opening_limits budget) (λ _. [])) }
{
    let caches = open_caches(alloc, &fonts, budget)?;
    let track = LiveEvents::new(alloc);
    let looks = BTreeMap::new(alloc);
    Ok(World {
        script,
        fonts,
        track,
        caches,
        looks,
    })
}

/// One step. Out of memory gives back the world as it was, and comes of no step that takes none.
pub fn one_step(alloc: Global, mut world: World, step: &Step) -> Result<(World, Reply), World>
    requires told { IsWorld world }
    requires step { IsValidStep (arc_value world.fonts).fonts step.now }
    ensures script { IfOk result (λ r. r.0.script ≡ world.script) }
    ensures fonts { IfOk result (λ r. r.0.fonts ≡ world.fonts) }
    ensures ok { (s : WorldState WorldTag) → TellsWorld world s
        → IfOk result (λ r. TellsWorld r.0 (after_step world_meaning s step.now)
        × IsReply (arc_value world.script) (arc_value world.fonts).fonts s step.now r.1) }
    ensures laws { IfOk result (λ r. KeepsLaws world_meaning r.0.caches) }
    ensures err { (s : WorldState WorldTag) → TellsWorld world s → IfErr result (λ w. TellsWorld w s) }
    ensures inputs { IfErr result (λ w. (w.script ≡ world.script) × (w.fonts ≡ world.fonts)) }
    ensures calm { TakesNoMemory step.now → IsOk result }
{
    match world.step(alloc, step) {
        Ok(reply) => Ok((world, reply)),
        Err(_) => Err(world),
    }
}

/// Steps, one after another, and their replies. After each step the laws hold, and what is shown is the picture without caches of the
/// first entries of the track's history. Out of memory gives back the world after the steps that were done.
pub fn run(alloc: Global, mut world: World, steps: &[Step]) -> Result<(World, Vec<Reply>), World>
    requires told { IsWorld world }
    requires steps { All (IsValidStep (arc_value world.fonts).fonts) steps.now }
    ensures script { IfOk result (λ r. r.0.script ≡ world.script) }
    ensures fonts { IfOk result (λ r. r.0.fonts ≡ world.fonts) }
    ensures state { (s : WorldState WorldTag) → TellsWorld world s → IfOk result (λ r. IsRunOf s steps.now r.0) }
    ensures replies { (s : WorldState WorldTag) → TellsWorld world s
        → IfOk result (λ r. AreReplies (arc_value world.script) (arc_value world.fonts).fonts world_meaning s steps.now r.1.items) }
    ensures shown { (s : WorldState WorldTag) → TellsWorld world s → BeginsWithLooks s
        → IfOk result (λ r. ShowPicturesOfFirst (arc_value world.script) (arc_value world.fonts).fonts s steps.now r.1.items) }
    ensures err { (s : WorldState WorldTag) → TellsWorld world s → IfErr result (λ w. (k : ℕ) × (k < length steps.now) × IsRunOf s (take k steps.now) w) }
    ensures inputs { IfErr result (λ w. (w.script ≡ world.script) × (w.fonts ≡ world.fonts)) }
{
    world.proof_laws();
    let mut replies = Vec::new(alloc);
    for step in steps {
        if replies.reserve(1).is_err() {
            return Err(world);
        }
        match world.step(alloc, step) {
            Ok(reply) => replies.push_reserved(reply),
            Err(_) => return Err(world),
        }
    }
    Ok((world, replies))
}

impl World {
    /// One step, after which the laws hold.
    fn step(&mut self, alloc: Global, step: &Step) -> Mem<Reply>
        requires told { IsWorld self.old }
        requires step { IsValidStep (arc_value self.old.fonts).fonts step.now }
        ensures made { IsMade self.old step.now self.new result }
        ensures calm { TakesNoMemory step.now → IsOk result }
        ensures laws { KeepsLaws world_meaning self.new.caches }
    {
        let made = self.make(alloc, step);
        self.proof_laws();
        made
    }

    /// What holds after all steps that were made.
    pub fn proof_laws(&self)
        ensures { KeepsLaws world_meaning self.now.caches }
    {
        self.caches.proof_histories();
    }

    fn make(&mut self, alloc: Global, step: &Step) -> Mem<Reply>
        requires told { IsWorld self.old }
        requires step { IsValidStep (arc_value self.old.fonts).fonts step.now }
        ensures made { IsMade self.old step.now self.new result }
        ensures calm { TakesNoMemory step.now → IsOk result }
    {
        match step {
            Step::Feed(_, chunk) => self.feed(alloc, chunk),
            Step::Flush(_) => Ok(self.flush()),
            Step::Look(actor, t, size) => self.look(alloc, *actor, *t, size),
            Step::AskOutline(actor, key) => self.ask_outline(alloc, *actor, key),
            Step::AskMask(actor, key) => self.ask_mask(alloc, *actor, key),
            Step::AskComposite(actor, key) => self.ask_composite(alloc, *actor, key),
            Step::Fill(actor, i) => self.fill(alloc, *actor, *i),
            Step::Fail(actor, i) => Ok(self.fail(*actor, *i)),
            Step::Unpin(actor, i) => Ok(self.unpin(*actor, *i)),
            Step::Limits(kind, shard, entries, budget) => {
                Ok(self.set_limits(*kind, *shard, *entries, *budget))
            }
            Step::Show(actor) => self.show(alloc, *actor),
        }
    }

    fn feed(&mut self, alloc: Global, chunk: &Chunk) -> Mem<Reply>
        requires told { IsWorld self.old }
        requires short { length chunk.now.bytes ≤ max_text_bytes }
        ensures { IsMadeBy (λ s. record s { history = after_chunk s.history (event_of chunk.now.bytes chunk.now.start chunk.now.duration) })
            (λ s r. IsFedReply s.history (event_of chunk.now.bytes chunk.now.start chunk.now.duration) r) self.old self.new result }
    {
        feed(alloc, &mut self.track, chunk)
    }

    fn flush(&mut self) -> Reply
        requires { IsWorld self.old }
        ensures { IsMadeBy (λ s. record s { history = flushed s.history }) (λ s r. r ≡ reply.Flushed (flush_answer s.history)) self.old self.new (Ok result) }
    {
        Reply::Flushed(flush(&mut self.track))
    }

    fn look(&mut self, alloc: Global, actor: u32, t: i64, size: &Size) -> Mem<Reply>
        requires told { IsWorld self.old }
        requires instant { IsWithin max_instant t }
        requires size { IsFrameSize size.now }
        ensures { IsMadeBy (λ s. record s { looks = with_look actor (record { history = s.history; instant = t; size = size.now }) s.looks })
            (λ s r. r ≡ reply.Looked (length s.history)) self.old self.new result }
    {
        let setting = Setting {
            script: &self.script,
            fonts: &self.fonts,
            frame: FrameView::plain(*size),
        };
        let look = look_at(alloc, &setting, &self.track, t)?;
        self.looks.insert(actor, look)?;
        Ok(Reply::Looked(self.track.entries()))
    }

    fn ask(&mut self, alloc: Global, actor: u32, key: &WorldKey) -> Mem<Reply>
        requires told { IsWorld self.old }
        requires key { IsValidWorldKey (glyph_counts (arc_value self.old.fonts).fonts) key.now }
        ensures { IsMadeBy (λ s. record s { caches = asked equal_world_keys (held_key actor key.now) s.caches })
            (λ s r. IsAskReply s.caches actor key.now r) self.old self.new result }
    {
        ask(alloc, &mut self.caches, &self.fonts, actor, key)
    }

    fn ask_outline(&mut self, alloc: Global, actor: u32, key: &RegionKey) -> Mem<Reply>
        requires told { IsWorld self.old }
        requires key { IsValidRegion (glyph_counts (arc_value self.old.fonts).fonts) key.now }
        ensures { IsMade self.old (step.AskOutline actor key.now) self.new result }
    {
        let copy = region_key_copy(alloc, key)?;
        self.ask(alloc, actor, &WorldKey::Outline(copy))
    }

    fn ask_mask(&mut self, alloc: Global, actor: u32, key: &MaskKey) -> Mem<Reply>
        requires told { IsWorld self.old }
        requires key { IsValidMask (glyph_counts (arc_value self.old.fonts).fonts) key.now }
        ensures { IsMade self.old (step.AskMask actor key.now) self.new result }
    {
        let copy = mask_key_copy(alloc, key)?;
        self.ask(alloc, actor, &WorldKey::Mask(copy))
    }

    fn ask_composite(&mut self, alloc: Global, actor: u32, key: &CompositeKey) -> Mem<Reply>
        requires told { IsWorld self.old }
        requires key { IsValidComposite (glyph_counts (arc_value self.old.fonts).fonts) key.now }
        ensures { IsMade self.old (step.AskComposite actor key.now) self.new result }
    {
        let copy = key_copy(alloc, key)?;
        self.ask(alloc, actor, &WorldKey::Composite(copy))
    }

    fn fill(&mut self, alloc: Global, actor: u32, i: usize) -> Mem<Reply>
        requires { IsWorld self.old }
        ensures { IsMade self.old (step.Fill actor i) self.new result }
    {
        fill(alloc, &mut self.caches, &self.fonts, actor, i)
    }

    fn fail(&mut self, actor: u32, i: usize) -> Reply
        requires { IsWorld self.old }
        ensures { IsMade self.old (step.Fail actor i) self.new (Ok result) }
    {
        fail(&mut self.caches, &self.fonts, actor, i)
    }

    fn unpin(&mut self, actor: u32, i: usize) -> Reply
        requires { IsWorld self.old }
        ensures { IsMade self.old (step.Unpin actor i) self.new (Ok result) }
    {
        unpin(&mut self.caches, &self.fonts, actor, i)
    }

    fn set_limits(&mut self, kind: ValueKind, shard: u32, entries: u32, budget: u64) -> Reply
        requires told { IsWorld self.old }
        requires shard { shard < shard_count }
        requires least { 1 ≤ entries }
        requires most { entries ≤ max_entries }
        requires budget { budget ≤ max_budget }
        ensures { IsMade self.old (step.Limits kind shard entries budget) self.new (Ok result) }
    {
        set_limits(&mut self.caches, &self.fonts, kind, shard, entries, budget);
        Reply::Done
    }

    fn show(&self, alloc: Global, actor: u32) -> Mem<Reply>
        requires { IsWorld self.now }
        ensures { (s : WorldState WorldTag) → TellsWorld self.now s
            → IfOk result (λ r. IsShowReply (arc_value self.now.script) (arc_value self.now.fonts).fonts s.caches actor (s.looks actor) r) }
    {
        match self.looks.get(&actor) {
            Some(look) => self.show_look(alloc, actor, look),
            None => Ok(Reply::Idle),
        }
    }

    /// Shows a look of an actor.
    fn show_look(&self, alloc: Global, actor: u32, look: &ActorLook) -> Mem<Reply>
        requires told { IsWorld self.now }
        requires size { IsFrameSize look.now.size }
        ensures { (s : WorldState WorldTag) (seen : LookState) → TellsWorld self.now s
            → TellsLook (arc_value self.now.script) (arc_value self.now.fonts).fonts look.now seen
            → IfOk result (λ r. IsLookReply (arc_value self.now.script) (arc_value self.now.fonts).fonts s.caches actor seen r) }
    {
        self.proof_laws();
        let shown = pixels_of(alloc, &self.caches, actor, &look.plan, &look.size)?;
        match shown {
            Some(pixels) => Ok(Reply::Shown(look.n, pixels)),
            None => Ok(Reply::Idle),
        }
    }
}
