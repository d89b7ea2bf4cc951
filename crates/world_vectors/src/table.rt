//! The replies to a list of steps that is read, each beside the one that it has to be.

use crate::lines::dot_inputs;
use crate::moves::{Act, replies_of};
use std::alloc::Global;
use std::io;
use std::test::Fail;
use world_core::Reply;

/// A dot, and one with a border.
const LINES: &str = "Dialogue: 0,0:00:00.00,0:00:10.00,Default,,0,0,0,,x\n\
    Dialogue: 0,0:00:00.00,0:00:10.00,Default,,0,0,0,,{\\bord4}x\n";

fn number(word: Option<&str>) -> u16 {
    match word {
        Some(word) => word.parse::<u16>().unwrap_or(0),
        None => 0,
    }
}

/// What an actor does with the track and its looks.
fn track_act(name: &str, n: u16) -> Option<Act> {
    match name {
        "feed" => Some(Act::Feed(usize::from(n))),
        "feed-short" => Some(Act::FeedShort),
        "flush" => Some(Act::Flush),
        "look" => Some(Act::Look(n)),
        "show" => Some(Act::Show),
        _ => None,
    }
}

/// What it does with a key, a ticket or a pin.
fn cache_act(name: &str, n: u16) -> Option<Act> {
    let place = usize::from(n);
    match name {
        "outline" => Some(Act::Outline(place)),
        "mask" => Some(Act::Mask(place)),
        "composite" => Some(Act::Composite(place)),
        "fill" => Some(Act::Fill(place)),
        "fail" => Some(Act::Fail(place)),
        "unpin" => Some(Act::Unpin(place)),
        _ => track_act(name, n),
    }
}

/// What it does by a name and up to four numbers: new limits have a shard's kind, its place there, its entries and its budget.
fn act_of(name: &str, numbers: [u16; 4]) -> Option<Act> {
    let [n, shard, entries, budget] = numbers;
    match name {
        "limits" => Some(Act::Limits(n, shard, entries, budget)),
        _ => cache_act(name, n),
    }
}

/// The step of a row, which begins with an actor.
fn move_of(row: &str) -> Option<(u32, Act)> {
    let mut words = row.split_whitespace();
    let actor = u32::from(number(words.next()));
    let name = words.next().unwrap_or("");
    let numbers = [
        number(words.next()),
        number(words.next()),
        number(words.next()),
        number(words.next()),
    ];
    match act_of(name, numbers) {
        Some(act) => Some((actor, act)),
        None => None,
    }
}

fn moves_of(alloc: Global, text: &str) -> Result<Vec<(u32, Act)>, Fail> {
    let mut moves = Vec::new(alloc);
    for row in text.lines() {
        moves.push(move_of(row).ok_or("no step")?)?;
    }
    Ok(moves)
}

/// Prints the reply to the step of a row, where it isn't the row's own.
fn show_other(rt: &HostRuntime, row: &str, reply: &Reply) -> Result<(), Fail> {
    let (step, wanted) = row.split_once(" => ").ok_or("no reply")?;
    let found = format!(in rt.alloc(); "{reply:?}")?;
    if found.as_str() != wanted {
        println!(rt; "{step} => {found}")?;
    }
    Ok(())
}

/// Prints the replies that aren't those of the rows, and how many there are.
fn show_others(rt: &HostRuntime, text: &str, replies: &[Reply]) -> Result<(), Fail> {
    for (row, reply) in text.lines().zip(replies) {
        show_other(rt, row, reply)?;
    }
    let count = replies.len();
    println!(rt; "replies: {count}")?;
    Ok(())
}

/// Makes the steps of a text in a new world with a budget of 0.
fn show_steps(rt: &HostRuntime, text: &str) -> Result<(), Fail> {
    let inputs = dot_inputs(rt.alloc(), LINES, 0)?;
    let moves = moves_of(rt.alloc(), text)?;
    let replies = replies_of(rt.alloc(), &inputs, 0, moves.as_slice())?;
    show_others(rt, text, replies.as_slice())
}

/// The same of the rows that are read, and of none.
pub fn show(rt: &HostRuntime) -> Result<(), Fail> {
    let text = io::read_to_string(rt.alloc(), rt.reader())?;
    show_steps(rt, text.as_str())?;
    show_steps(rt, "")
}
