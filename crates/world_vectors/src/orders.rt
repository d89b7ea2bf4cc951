//! Pictures of events that came in three orders.
ghost use Rattle.std.specs.Prelude.{IfOk};
ghost use Rattle.world_vectors.specs.Given.{AreInputs};

use crate::inputs::{Inputs, inputs_of};
use crate::moves::{Act, replies_of};
use crate::plain::{is_lit, picture};
use ass_num::Size;
use generated_script::{generated, grid_font};
use std::alloc::{AllocError, Global};
use std::test::Fail;
use world_core::Reply;

/// How many events there are.
const COUNT: usize = 50;

/// The instant that is shown, in milliseconds.
const AT: u16 = 2_000;

/// Feeds each event once, in steps of so many: a number that has no factor in common with their count. Then looks, has all masks and shows them.
fn moves_in(alloc: Global, step: usize, keys: usize) -> Result<Vec<(u32, Act)>, AllocError> {
    let mut moves = Vec::new(alloc);
    for n in 0..COUNT {
        let i = n.wrapping_mul(step) % COUNT;
        moves.push(((n % 4) as u32, Act::Feed(i)))?;
    }
    moves.push((0, Act::Look(AT)))?;
    add_asks(&mut moves, keys)?;
    moves.push((0, Act::Show))?;
    Ok(moves)
}

/// Asks for each composed mask, and makes it.
fn add_asks(moves: &mut Vec<(u32, Act)>, keys: usize) -> Result<(), AllocError> {
    for i in 0..keys {
        moves.push((0, Act::Composite(i)))?;
        moves.push((0, Act::Fill(0)))?;
    }
    Ok(())
}

/// Prints what the last reply shows, beside the picture that is wanted.
fn show_last(rt: &HostRuntime, step: usize, replies: &[Reply], wanted: &[u8]) -> Result<(), Fail> {
    match replies.last() {
        Some(Reply::Shown(seen, pixels)) => {
            let same = pixels.as_slice() == wanted;
            println!(rt; "in steps of {step}: {seen} seen, as without caches: {same}")?;
        }
        _ => println!(rt; "in steps of {step}: nothing shown")?,
    }
    Ok(())
}

/// The same of events that are fed in steps of so many.
fn show_order(rt: &HostRuntime, inputs: &Inputs, step: usize, wanted: &[u8]) -> Result<(), Fail>
    requires { AreInputs inputs.now }
{
    let moves = moves_in(rt.alloc(), step, inputs.keys.len())?;
    let replies = replies_of(rt.alloc(), inputs, 67_108_864, moves.as_slice())?;
    show_last(rt, step, replies.as_slice(), wanted)
}

fn generated_inputs(alloc: Global) -> Result<Inputs, Fail>
    ensures { IfOk result AreInputs }
{
    let text = generated(alloc, 7, COUNT as u32)?;
    let font = grid_font(alloc)?;
    inputs_of(alloc, text.as_slice(), font, Size { w: 320, h: 180 }, AT)
}

/// Prints, for each order, whether the picture is the one without caches of the script's events.
pub fn show(rt: &HostRuntime) -> Result<(), Fail> {
    let inputs = generated_inputs(rt.alloc())?;
    let wanted = picture(rt.alloc(), &inputs, AT)?;
    let (masks, lit) = (inputs.keys.len(), is_lit(wanted.as_slice()));
    println!(rt; "{masks} masks, some pixels aren't black: {lit}")?;
    for step in [1, 7, 49] {
        show_order(rt, &inputs, step, wanted.as_slice())?;
    }
    Ok(())
}
