//! What replies tell of the track and of looks, and the pictures that have to be shown then.

use crate::lines::{dot_inputs, lines_of};
use crate::moves::Act;
use crate::plain::{is_lit, picture};
use std::alloc::{AllocError, Global};
use std::collections::BTreeMap;
use std::test::Fail;
use track_history::{Feed, Flushed};
use world_core::Reply;

/// What asks came to: whether some key was being made, or crowded, or was evicted; and the keys that were hit.
#[derive(Drop)]
struct Asks {
    hit: Vec<usize>,
    flying: bool,
    crowded: bool,
    evicted: bool,
}

/// The lines and the flushes that came so far, and of each actor how many of them its last look saw, at which instant; whether
/// some picture wasn't black, and how many pictures were others than without caches; and what asks came to.
#[derive(Drop)]
pub struct Watch {
    entries: Vec<Option<usize>>,
    looks: BTreeMap<u32, (usize, u16)>,
    lit: bool,
    wrong: u32,
    asks: Asks,
}

/// The lines that came after the last flush.
fn live_lines(alloc: Global, entries: &[Option<usize>]) -> Result<Vec<usize>, AllocError> {
    let mut lines = Vec::new(alloc);
    for entry in entries {
        match entry {
            Some(line) => lines.push(*line)?,
            None => lines.clear(),
        }
    }
    Ok(lines)
}

/// The bytes of the picture of these lines.
fn picture_of(alloc: Global, lines: &[usize], t: u16) -> Result<Vec<u8>, Fail> {
    let text = lines_of(alloc, lines)?;
    let inputs = dot_inputs(alloc, text.as_str(), t)?;
    picture(alloc, &inputs, t)
}

/// The same of what is live after these entries.
fn live_picture(alloc: Global, entries: &[Option<usize>], t: u16) -> Result<Vec<u8>, Fail> {
    let lines = live_lines(alloc, entries)?;
    picture_of(alloc, lines.as_slice(), t)
}

/// The number of a kind's key among those of all kinds.
fn asked_key(act: Act) -> Option<usize> {
    match act {
        Act::Outline(i) => Some(i.wrapping_mul(3)),
        Act::Mask(i) => Some(i.wrapping_mul(3).wrapping_add(1)),
        Act::Composite(i) => Some(i.wrapping_mul(3).wrapping_add(2)),
        _ => None,
    }
}

impl Asks {
    /// A key that had been hit and is claimed has been evicted between.
    fn add(&mut self, key: usize, reply: &Reply) -> Result<(), AllocError> {
        match reply {
            Reply::Hit => self.hit.push(key)?,
            Reply::Claim => self.evicted |= self.hit.contains(&key),
            Reply::Flying(_) => self.flying = true,
            Reply::Crowded => self.crowded = true,
            _ => {}
        }
        Ok(())
    }
}

impl Watch {
    /// Nothing came yet.
    pub fn new(alloc: Global) -> Watch {
        let asks = Asks {
            hit: Vec::new(alloc),
            flying: false,
            crowded: false,
            evicted: false,
        };
        Watch {
            entries: Vec::new(alloc),
            looks: BTreeMap::new(alloc),
            lit: false,
            wrong: 0,
            asks,
        }
    }

    /// Whether these pixels, of so many entries, are those of the script of the lines that the actor's last look saw.
    fn is_right(&self, alloc: Global, actor: u32, n: usize, pixels: &[u8]) -> Result<bool, Fail> {
        let (seen, t) = *self.looks.get(&actor).ok_or("no look")?;
        let entries = self.entries.get(..seen).ok_or("no such entries")?;
        let wanted = live_picture(alloc, entries, t)?;
        Ok(n == seen && pixels == wanted.as_slice())
    }

    fn add_shown(&mut self, pixels: &[u8], right: bool) {
        if is_lit(pixels) {
            self.lit = true;
        }
        if !right {
            self.wrong = self.wrong.saturating_add(1);
        }
    }

    fn add_asked(&mut self, act: Act, reply: &Reply) -> Result<(), AllocError> {
        match asked_key(act) {
            Some(key) => self.asks.add(key, reply),
            None => Ok(()),
        }
    }

    /// Takes down what an actor was told after an act of its own.
    fn add_told(&mut self, actor: u32, act: Act, reply: &Reply) -> Result<(), AllocError> {
        match act {
            Act::Feed(line) => {
                if matches!(reply, Reply::Fed(Feed::Accepted(_))) {
                    self.entries.push(Some(line))?;
                }
            }
            Act::Look(t) => {
                if let Reply::Looked(n) = reply {
                    self.looks.insert(actor, (*n, t))?;
                }
            }
            _ => self.add_asked(act, reply)?,
        }
        Ok(())
    }

    /// Takes down a reply.
    pub fn add(&mut self, alloc: Global, actor: u32, act: Act, reply: &Reply) -> Result<(), Fail> {
        match reply {
            Reply::Flushed(Flushed::Done(_)) => self.entries.push(None)?,
            Reply::Shown(n, pixels) => {
                let right = self.is_right(alloc, actor, *n, pixels.as_slice())?;
                self.add_shown(pixels.as_slice(), right);
            }
            _ => self.add_told(actor, act, reply)?,
        }
        Ok(())
    }

    fn show_asks(&self, rt: &HostRuntime) -> Result<(), Fail> {
        let flying = self.asks.flying;
        let crowded = self.asks.crowded;
        let evicted = self.asks.evicted;
        println!(rt; "  some flying: {flying}, crowded: {crowded}, evicted: {evicted}")?;
        Ok(())
    }

    /// Prints what asks came to, and what was shown.
    pub fn show(&self, rt: &HostRuntime) -> Result<(), Fail> {
        self.show_asks(rt)?;
        let lit = self.lit;
        let wrong = self.wrong;
        println!(rt; "  some shown not black: {lit}, not as without caches: {wrong}")?;
        Ok(())
    }
}
