//! What actors do in a world, and what they are answered.
ghost use Rattle.std.specs.Prelude.{◌≤◌, All, IfOk};
ghost use Rattle.evict_core.specs.Machine.{max_budget};
ghost use Rattle.mask_keys.specs.Keys.{IsValidComposite, IsValidMask};
ghost use Rattle.mask_keys.specs.Outlines.{glyph_counts};
ghost use Rattle.world_core.specs.Tellings.{IsValidStep};
ghost use Rattle.world_vectors.specs.Given.{AreInputs, fonts_in};

use crate::inputs::Inputs;
use ass_events::{Chunk, chunk_of_line};
use ass_num::Items;
use mask_keys::{CompositeKey, MaskKey, key_copy, mask_key_copy, region_key_of};
use std::alloc::Global;
use std::sync::Arc;
use std::test::Fail;
use test_hook::ValueKind;
use world_core::{Reply, Step, open, run};

/// The most bytes of a chunk that a world takes.
const MAX_CHUNK: usize = 134_217_728;

/// What an actor does.
#[derive(Clone, Copy)]
pub enum Act {
    /// Feeds the chunk of a line of the script.
    Feed(usize),
    /// Feeds a chunk without a text.
    FeedShort,
    Flush,
    /// Looks at an instant in milliseconds.
    Look(u16),
    /// Asks for one of the keys, or for what the first of its parts is made of.
    Outline(usize),
    Mask(usize),
    Composite(usize),
    Fill(usize),
    Fail(usize),
    Unpin(usize),
    /// Gives a shard of a kind so many entries and such a budget.
    Limits(u16, u16, u16, u16),
    Show,
}

fn key_at(inputs: &Inputs, i: usize) -> Result<&CompositeKey, Fail>
    requires { AreInputs inputs.now }
    ensures { IfOk result (λ key. IsValidComposite (glyph_counts (fonts_in inputs.now)) key.now) }
{
    if i >= inputs.keys.len() {
        return Err("no such key".into());
    }
    Ok(&inputs.keys[i])
}

/// The mask of a key's first part.
fn mask_at(inputs: &Inputs, i: usize) -> Result<&MaskKey, Fail>
    requires { AreInputs inputs.now }
    ensures { IfOk result (λ key. IsValidMask (glyph_counts (fonts_in inputs.now)) key.now) }
{
    let key = key_at(inputs, i)?;
    let part = key.parts.as_slice().first().ok_or("no part")?;
    Ok(&part.mask)
}

fn outline_step(alloc: Global, inputs: &Inputs, actor: u32, i: usize) -> Result<Step, Fail>
    requires { AreInputs inputs.now }
    ensures { IfOk result (IsValidStep (fonts_in inputs.now)) }
{
    let mask = mask_at(inputs, i)?;
    Ok(Step::AskOutline(actor, region_key_of(alloc, mask)?))
}

fn mask_step(alloc: Global, inputs: &Inputs, actor: u32, i: usize) -> Result<Step, Fail>
    requires { AreInputs inputs.now }
    ensures { IfOk result (IsValidStep (fonts_in inputs.now)) }
{
    let mask = mask_at(inputs, i)?;
    Ok(Step::AskMask(actor, mask_key_copy(alloc, mask)?))
}

fn composite_step(alloc: Global, inputs: &Inputs, actor: u32, i: usize) -> Result<Step, Fail>
    requires { AreInputs inputs.now }
    ensures { IfOk result (IsValidStep (fonts_in inputs.now)) }
{
    let key = key_at(inputs, i)?;
    Ok(Step::AskComposite(actor, key_copy(alloc, key)?))
}

fn line_step(alloc: Global, inputs: &Inputs, actor: u32, i: usize) -> Result<Step, Fail>
    ensures { IfOk result (IsValidStep (fonts_in inputs.now)) }
{
    if i >= inputs.script.line_count() || i > 1_000_000 {
        return Err("no such line".into());
    }
    let chunk = chunk_of_line(alloc, &inputs.script, i)?;
    if chunk.bytes.len() > MAX_CHUNK {
        return Err("too long".into());
    }
    Ok(Step::Feed(actor, chunk))
}

fn short_step(alloc: Global, inputs: &Inputs, actor: u32) -> Result<Step, Fail>
    ensures { IfOk result (IsValidStep (fonts_in inputs.now)) }
{
    let _ = inputs;
    let bytes = Vec::from_slice(alloc, b"0,0,Default,,0,0,0,a")?;
    Ok(Step::Feed(
        actor,
        Chunk {
            bytes: Items::from_vec(bytes),
            start: 0,
            duration: 10_000,
        },
    ))
}

fn limits_step(inputs: &Inputs, kind: u16, shard: u16, entries: u16, budget: u16) -> Step
    ensures { IsValidStep (fonts_in inputs.now) result }
{
    let _ = inputs;
    let kind = match kind {
        0 => ValueKind::Outline,
        1 => ValueKind::Mask,
        _ => ValueKind::Composite,
    };
    let entries = u32::from(entries.clamp(1, 16));
    Step::Limits(kind, u32::from(shard % 4), entries, u64::from(budget))
}

/// The steps that name a key or bytes.
fn given_step(alloc: Global, inputs: &Inputs, actor: u32, act: Act) -> Result<Step, Fail>
    requires { AreInputs inputs.now }
    ensures { IfOk result (IsValidStep (fonts_in inputs.now)) }
{
    match act {
        Act::Feed(i) => line_step(alloc, inputs, actor, i),
        Act::FeedShort => short_step(alloc, inputs, actor),
        Act::Outline(i) => outline_step(alloc, inputs, actor, i),
        Act::Mask(i) => mask_step(alloc, inputs, actor, i),
        Act::Composite(i) => composite_step(alloc, inputs, actor, i),
        _ => Err("no key".into()),
    }
}

fn step_of(alloc: Global, inputs: &Inputs, actor: u32, act: Act) -> Result<Step, Fail>
    requires { AreInputs inputs.now }
    ensures { IfOk result (IsValidStep (fonts_in inputs.now)) }
{
    match act {
        Act::Flush => Ok(Step::Flush(actor)),
        Act::Look(t) => Ok(Step::Look(actor, i64::from(t), inputs.size)),
        Act::Fill(i) => Ok(Step::Fill(actor, i)),
        Act::Fail(i) => Ok(Step::Fail(actor, i)),
        Act::Unpin(i) => Ok(Step::Unpin(actor, i)),
        Act::Limits(kind, shard, entries, budget) => {
            Ok(limits_step(inputs, kind, shard, entries, budget))
        }
        Act::Show => Ok(Step::Show(actor)),
        _ => given_step(alloc, inputs, actor, act),
    }
}

fn steps_of(alloc: Global, inputs: &Inputs, moves: &[(u32, Act)]) -> Result<Vec<Step>, Fail>
    requires { AreInputs inputs.now }
    ensures { IfOk result (λ steps. All (IsValidStep (fonts_in inputs.now)) steps.items) }
{
    let mut steps = Vec::new(alloc);
    for (actor, act) in moves {
        steps.push(step_of(alloc, inputs, *actor, *act)?)?;
    }
    Ok(steps)
}

/// The replies to what actors do in a new world.
pub fn replies_of(
    alloc: Global,
    inputs: &Inputs,
    budget: u64,
    moves: &[(u32, Act)],
) -> Result<Vec<Reply>, Fail>
    requires inputs { AreInputs inputs.now }
    requires budget { budget ≤ max_budget }
{
    let steps = steps_of(alloc, inputs, moves)?;
    let script = Arc::try_clone(&inputs.script)?;
    let fonts = Arc::try_clone(&inputs.fonts)?;
    let world = open(alloc, script, fonts, budget)?;
    match run(alloc, world, steps.as_slice()) {
        Ok((_, replies)) => Ok(replies),
        Err(_) => Err("no memory".into()),
    }
}
