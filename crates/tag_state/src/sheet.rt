//! What was shown so far, and in which states.

ghost use Rattle.std.specs.Prelude.{◌≡◌, ℕ, ◌+◌, ◌-◌, ◌^◌, ◌<◌, [], ◌∷◌, ◌++◌, length, true, Some, None, All, OnOk, IfOk, IfSome};
ghost use Rattle.override_tags.specs.Views.{IsState};
ghost use Rattle.tag_state.specs.Walks.{IsStored, IsLast, Grow, slot_count};

use ass_num::{Items, Mem, Rgba};
use override_tags::{Shown, ShownKind, State};
use std::alloc::Global;

/// How many numbers of states are kept to find equal ones.
const SLOTS: usize = 256;

/// An odd number of 64 bits, near 2^64 divided by the golden ratio.
const MIX: u64 = 0x9e37_79b9_7f4a_7c15;

/// A hash of six numbers.
#[inline]
fn hash_of(numbers: [i64; 6]) -> u64 {
    let mut hash = 0u64;
    for place in 0..6 {
        hash = hash.wrapping_mul(MIX).wrapping_add_signed(numbers[place]);
    }
    hash
}

/// A colour as one number.
#[inline]
fn number_of_colour(colour: Rgba) -> i64 {
    i64::from(u32::from_be_bytes([colour.r, colour.g, colour.b, colour.a]))
}

/// The slot in which the number of a state is kept. Equal states have the same slot.
fn slot_of(state: &State) -> usize
    ensures within { result < slot_count }
    ensures four { length state.now.colours ≡ 4 }
{
    let letters = hash_of([
        i64::from(state.font),
        i64::from(state.bold),
        i64::from(state.italic),
        i64::from(state.underline),
        i64::from(state.strikeout),
        i64::from(state.draw),
    ]);
    let sizes = hash_of([
        state.size,
        state.scale_x,
        state.scale_y,
        state.spacing,
        state.angle,
        state.offset,
    ]);
    let edges = hash_of([
        state.border_x,
        state.border_y,
        state.shadow_x,
        state.shadow_y,
        state.edges,
        state.blur,
    ]);
    let [first, second, third, fourth] = state.colours;
    let colours = hash_of([
        number_of_colour(first),
        number_of_colour(second),
        number_of_colour(third),
        number_of_colour(fourth),
        i64::from(state.border_style),
        state.sung.map_or(-1, |syllable| i64::from(syllable.index)),
    ]);
    let hash = letters ^ sizes.rotate_left(16) ^ edges.rotate_left(32) ^ colours.rotate_left(48);
    (hash.wrapping_mul(MIX) >> 56) as usize
}

/// What was shown, the states that were stored, the number of the present one where it was, and of each slot the number of
/// the state that was last found there.
#[derive(Drop)]
pub(crate) struct Sheet {
    pub(crate) states: Items<State>,
    pub(crate) items: Items<Shown>,
    current: Option<u32>,
    slots: [u32; SLOTS],
}

impl Sheet {
    /// Nothing.
    pub(crate) fn new(alloc: Global) -> Sheet
        ensures states { result.states ≡ [] }
        ensures items { result.items ≡ [] }
        ensures current { result.current ≡ None }
    {
        Sheet {
            states: Items::new(alloc),
            items: Items::new(alloc),
            current: None,
            slots: [0; SLOTS],
        }
    }

    /// Takes it that the state may have changed.
    pub(crate) fn turn(&mut self)
        ensures { self.new ≡ record self.old { current = None } }
    {
        self.current = None;
    }

    /// The number of the state, where its slot has it.
    fn found(&self, slot: usize, state: &State) -> Option<u32>
        requires { slot < slot_count }
        ensures { IfSome result (IsStored self.now.states state.now) }
    {
        let number = self.slots[slot];
        let states = self.states.as_slice();
        if number as usize >= states.len() {
            return None;
        }
        if states[number as usize] == *state {
            return Some(number);
        }
        None
    }

    /// Stores the state as the last one, and its number in its slot.
    fn store(&mut self, slot: usize, state: &State) -> Mem<u32>
        requires room { length self.old.states + 1 < 2 ^ 32 }
        requires slot { slot < slot_count }
        ensures number { IfOk result (λ number. IsLast self.new.states state.now number) }
        ensures grown { OnOk result (Grow self.old.states self.new.states) }
        ensures items { self.new.items ≡ self.old.items }
        ensures held { (names : ℕ) → IsState names state.now → All (IsState names) self.old.states → OnOk result (All (IsState names) self.new.states) }
    {
        let number = self.states.len() as u32;
        self.states.push(*state)?;
        self.slots[slot] = number;
        Ok(number)
    }

    /// The number of the state, which is stored where it isn't found.
    fn number_of(&mut self, state: &State) -> Mem<u32>
        requires room { length self.old.states + 1 < 2 ^ 32 }
        requires current { IfSome self.old.current (IsStored self.old.states state.now) }
        ensures number { IfOk result (λ number. IsStored self.new.states state.now number) }
        ensures current { IfOk result (λ number. self.new.current ≡ Some number) }
        ensures grown { OnOk result (Grow self.old.states self.new.states) }
        ensures items { self.new.items ≡ self.old.items }
        ensures held { (names : ℕ) → (length state.now.colours ≡ 4 → IsState names state.now) → All (IsState names) self.old.states
            → OnOk result (All (IsState names) self.new.states) }
    {
        if let Some(number) = self.current {
            return Ok(number);
        }
        let slot = slot_of(state);
        if let Some(number) = self.found(slot, state) {
            self.current = Some(number);
            return Ok(number);
        }
        let number = self.store(slot, state)?;
        self.current = Some(number);
        Ok(number)
    }

    /// Shows a kind in a state.
    pub(crate) fn show(&mut self, state: &State, kind: ShownKind) -> Mem<()>
        requires room { length self.old.states + 1 < 2 ^ 32 }
        requires current { IfSome self.old.current (IsStored self.old.states state.now) }
        ensures shown { OnOk result ((number : ℕ) × (self.new.items ≡ self.old.items ++ record { kind = kind; state = number } ∷ [])
            × IsStored self.new.states state.now number) }
        ensures current { OnOk result (IfSome self.new.current (IsStored self.new.states state.now)) }
        ensures grown { OnOk result (Grow self.old.states self.new.states) }
        ensures held { (names : ℕ) → (length state.now.colours ≡ 4 → IsState names state.now) → All (IsState names) self.old.states
            → OnOk result (All (IsState names) self.new.states) }
    {
        let state = self.number_of(state)?;
        self.items.push(Shown { kind, state })
    }

    /// Whether the state is the last one.
    fn is_last(&self, state: &State) -> bool
        ensures { result ≡ true → IsLast self.now.states state.now (length self.now.states - 1) }
    {
        match self.states.as_slice().last() {
            Some(last) => *last == *state,
            None => false,
        }
    }

    /// Stores the state behind the whole text, where it isn't the last one.
    pub(crate) fn end(&mut self, state: &State) -> Mem<()>
        requires room { length self.old.states + 1 < 2 ^ 32 }
        ensures last { OnOk result ((number : ℕ) × IsLast self.new.states state.now number) }
        ensures grown { OnOk result (Grow self.old.states self.new.states) }
        ensures items { self.new.items ≡ self.old.items }
        ensures held { (names : ℕ) → (length state.now.colours ≡ 4 → IsState names state.now) → All (IsState names) self.old.states
            → OnOk result (All (IsState names) self.new.states) }
    {
        if self.is_last(state) {
            return Ok(());
        }
        let _number = self.store(slot_of(state), state)?;
        Ok(())
    }
}
