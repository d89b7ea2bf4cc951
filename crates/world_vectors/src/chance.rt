//! Steps at random.
ghost use Rattle.std.specs.Prelude.{◌≤◌};
ghost use Rattle.evict_core.specs.Machine.{max_budget};
ghost use Rattle.world_vectors.specs.Given.{AreInputs};

use crate::inputs::Inputs;
use crate::lines::crowd_inputs;
use crate::moves::{Act, replies_of};
use crate::watch::Watch;
use std::alloc::{AllocError, Global};
use std::test::Fail;
use world_core::Reply;

/// How many steps are made.
const COUNT: u32 = 1_000;

/// The numbers that decide the steps.
#[derive(Drop)]
struct Dice {
    state: u32,
}

impl Dice {
    fn roll(&mut self) -> u16 {
        self.state = self.state.wrapping_mul(1_103_515_245).wrapping_add(12_345);
        (self.state / 65_536) as u16
    }
}

/// The key that an actor asks for: each third is one of the others, beside the lines' own eight.
fn key_of(n: u16) -> usize {
    if n % 3 == 0 {
        usize::from(8 + n / 3 % 24)
    } else {
        usize::from(n / 3 % 8)
    }
}

fn ask_of(sort: u16, n: u16) -> Act {
    let key = key_of(n);
    match sort {
        0 => Act::Outline(key),
        1 => Act::Mask(key),
        _ => Act::Composite(key),
    }
}

/// What an actor does, by a sort and a number.
fn act_of(sort: u16, n: u16) -> Act {
    match sort {
        0 => Act::Flush,
        1..=4 => Act::Feed(usize::from(n % 6)),
        5..=7 => Act::Look(n % 6 * 10),
        8..=13 => Act::Fill(usize::from(n % 2)),
        14 => Act::Fail(usize::from(n % 2)),
        15..=22 => Act::Unpin(usize::from(n % 4)),
        23..=26 => Act::Show,
        27..=38 => ask_of(sort % 8, n),
        _ => Act::Limits(n % 3, n / 3 % 4, n / 12 % 4, n % 256),
    }
}

/// The steps of four actors by a seed, with new limits only where they are to be set.
fn moves_of(alloc: Global, seed: u32, limited: bool) -> Result<Vec<(u32, Act)>, AllocError> {
    let sorts = if limited { 44 } else { 39 };
    let mut dice = Dice { state: seed };
    let mut moves = Vec::new(alloc);
    for _ in 0..COUNT {
        let actor = u32::from(dice.roll() % 4);
        let sort = dice.roll() % sorts;
        moves.push((actor, act_of(sort, dice.roll())))?;
    }
    Ok(moves)
}

fn is_idle(reply: &Reply) -> bool {
    matches!(reply, Reply::Idle)
}

/// The steps that weren't idle.
fn without_idle(
    alloc: Global,
    moves: &[(u32, Act)],
    replies: &[Reply],
) -> Result<Vec<(u32, Act)>, AllocError> {
    let mut kept = Vec::new(alloc);
    for (one, reply) in moves.iter().zip(replies) {
        if !is_idle(reply) {
            kept.push(*one)?;
        }
    }
    Ok(kept)
}

/// The replies that aren't idle, each in a line.
fn told(alloc: Global, replies: &[Reply]) -> Result<String, Fail> {
    let mut lines = String::new(alloc);
    for reply in replies {
        if !is_idle(reply) {
            let line = format!(in alloc; "{reply:?}\n")?;
            lines.push_str(line.as_str())?;
        }
    }
    Ok(lines)
}

/// What is told in a new world where these steps alone are made.
fn told_of(
    alloc: Global,
    inputs: &Inputs,
    budget: u64,
    moves: &[(u32, Act)],
) -> Result<String, Fail>
    requires inputs { AreInputs inputs.now }
    requires budget { budget ≤ max_budget }
{
    let replies = replies_of(alloc, inputs, budget, moves)?;
    told(alloc, replies.as_slice())
}

/// Prints whether steps were idle, and whether the others are answered the same without them.
fn show_idle(
    rt: &HostRuntime,
    inputs: &Inputs,
    budget: u64,
    moves: &[(u32, Act)],
    replies: &[Reply],
) -> Result<(), Fail>
    requires inputs { AreInputs inputs.now }
    requires budget { budget ≤ max_budget }
{
    let kept = without_idle(rt.alloc(), moves, replies)?;
    let others = told_of(rt.alloc(), inputs, budget, kept.as_slice())?;
    let same = told(rt.alloc(), replies)? == others;
    let idle = kept.len() < moves.len();
    println!(rt; "  some idle: {idle}, the same without them: {same}")?;
    Ok(())
}

fn watched(alloc: Global, moves: &[(u32, Act)], replies: &[Reply]) -> Result<Watch, Fail> {
    let mut watch = Watch::new(alloc);
    for ((actor, act), reply) in moves.iter().zip(replies) {
        watch.add(alloc, *actor, *act, reply)?;
    }
    Ok(watch)
}

/// Prints what came of the steps.
fn show_replies(
    rt: &HostRuntime,
    inputs: &Inputs,
    budget: u64,
    moves: &[(u32, Act)],
) -> Result<(), Fail>
    requires inputs { AreInputs inputs.now }
    requires budget { budget ≤ max_budget }
{
    let replies = replies_of(rt.alloc(), inputs, budget, moves)?;
    show_idle(rt, inputs, budget, moves, replies.as_slice())?;
    let watch = watched(rt.alloc(), moves, replies.as_slice())?;
    watch.show(rt)
}

/// Makes steps by a seed, and those of them that aren't idle again in a new world.
fn play(
    rt: &HostRuntime,
    inputs: &Inputs,
    seed: u32,
    limited: bool,
    budget: u64,
) -> Result<(), Fail>
    requires inputs { AreInputs inputs.now }
    requires budget { budget ≤ max_budget }
{
    println!(rt; "seed {seed}, budget {budget}:")?;
    let moves = moves_of(rt.alloc(), seed, limited)?;
    show_replies(rt, inputs, budget, moves.as_slice())
}

/// Plays with no budget, with room for 16 entries, and with ample room; and once more where shards get other limits.
pub fn show(rt: &HostRuntime) -> Result<(), Fail> {
    let inputs = crowd_inputs(rt.alloc())?;
    play(rt, &inputs, 20, false, 0)?;
    play(rt, &inputs, 20, false, 16_384)?;
    play(rt, &inputs, 20, false, 67_108_864)?;
    play(rt, &inputs, 8, true, 16_384)
}
