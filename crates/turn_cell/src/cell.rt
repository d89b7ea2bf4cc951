//! A cell, and the calls on it.
ghost use Rattle.std.specs.Prelude.{◌≡◌, ◌≢◌, ℕ, ◌+◌, ◌<◌, ◌≤◌, ◌-◌, ◌^◌, [], IfOk, IfErr, IfSome, IfNone, IsSome, OnOk};
ghost use mathlib.Core.Option.{none};
ghost use Rattle.atomic_table.specs.Table.{step};
ghost use Rattle.turn_cell.specs.History.{History, IsPrefix, IsBelow, with_entry};
ghost use Rattle.turn_cell.specs.Passes.{IsOf, IsTurnOf, IsTurnAfterTries, Extends, IsWholePass, IsUnjoined, first_pass, split_pass, new_pass, joined_pass};
ghost use Rattle.turn_cell.specs.Passes.{mine};
ghost use Rattle.turn_cell.specs.Plays.{IsReadyToGive, GiveTells};

use crate::book::Book;
use crate::pass::Pass;
use crate::plays::{Compare, Draw, Give, PickedEntry, Take};
use crate::rule::{Branch, Merge, OneHistory};
use crate::seat_view::SeatView;
use crate::turn::Turn;
use atomic_table::{Refused, Seat, Table};
use crossbeam_utils::Backoff;
use std::alloc::Global;
use std::marker::{Brand, Model};
use std::sync::Wait;

/// The word of the turn, and what it says.
const TURN: usize = 0;

const HOME: u64 = 0;

const OUT: u64 = 1;

/// The word of numbers: the least number that wasn't drawn yet.
const NUMBERS: usize = 1;

/// The slot of the value.
const VALUE: usize = 0;

/// A value behind a turn. Threads share it by `&`.
///
/// A pass or a turn must come from the cell that it is used on. But for `open`, no call takes memory, and but for
/// `take`, none waits.
#[derive(Drop)]
pub struct TurnCell<B: Book> {
    table: Table<Option<B>, SeatView<B::Entry, B::Tag>, B::Tag, OneHistory<B>, Global>,
}

impl<B: Book> Model for TurnCell<B> {
    ghost use Rattle.std.specs.Prelude.{◌≡◌};
    ghost use Rattle.turn_cell.specs.Passes.{CellView};

    ghost Value = { CellView B.Tag };

    ghost view = { λ c. record { id = c.table.shared.table_id; tag = c.table.shared.key } };

    ghost invariant = { λ c. (c.table.shared.table_id.words ≡ 2) × (c.table.shared.table_id.slots ≡ 1) };
}

impl<B: Book> TurnCell<B> {
    /// A cell whose history is empty, and its first pass. Where there is no memory, tag and value come back.
    pub fn open(alloc: Global, tag: B::Tag, value: B) -> Result<(TurnCell<B>, Pass<B>), (B::Tag, B)>
        requires { B.stands tag value [] }
        ensures ok { IfOk result (λ r. (r.0.tag ≡ tag) × (r.1 ≡ first_pass r.0)) }
        ensures err { IfErr result (λ r. r ≡ (tag, value)) }
    {
        let mut slots = Vec::new(alloc);
        if slots.reserve(1).is_err() {
            slots.destroy_empty();
            return Err((tag, value));
        }
        slots.push_reserved(Some(value));
        match Table::new(alloc, &[HOME, 1], slots, &tag) {
            Ok((table, seat)) => Ok((
                TurnCell { table },
                Pass {
                    number: 0,
                    next: 1,
                    seat,
                },
            )),
            Err(refused) => {
                let Refused { mut slots } = refused;
                let Some(slot) = slots.pop() else {
                    unreachable!()
                };
                slots.destroy_empty();
                let Some(value) = slot else { unreachable!() };
                Err((tag, value))
            }
        }
    }

    /// Takes the turn, and waits for it while it is out.
    pub fn take<R: Wait>(&self, rt: &R, pass: Pass<B>) -> Turn<B>
        requires { IsOf self.now pass }
        ensures { IsTurnAfterTries B.stands self.now.tag pass result }
    {
        let backoff = Backoff::new();
        let mut waiting = pass;
        for _ in rt.forever() {
            match self.try_take(waiting) {
                Ok(turn) => return turn,
                Err(back) => waiting = back,
            }
            backoff.snooze();
        }
        unreachable!()
    }

    /// Takes the turn if it is home. Else the pass comes back, with one lost try more.
    pub fn try_take(&self, pass: Pass<B>) -> Result<Turn<B>, Pass<B>>
        requires { IsOf self.now pass }
        ensures turn { IfOk result (IsTurnOf B.stands self.now.tag pass) }
        ensures out { IfErr result (λ p. p ≡ record pass { lost = pass.lost + 1 }) }
    {
        let Pass {
            number,
            next,
            mut seat,
        } = pass;
        let word = self
            .table
            .shared
            .compare_exchange::<Take<B>>(&mut seat, TURN, HOME, OUT);
        if word != HOME {
            return Err(Pass { number, next, seat });
        }
        let Some(value) = self.table.shared.exchange(&mut seat, VALUE, None) else {
            unreachable!()
        };
        Ok(Turn {
            number,
            next,
            seat,
            value,
        })
    }

    /// Gives the turn back, with at most one entry more in the history. The pass has then seen that history.
    pub fn give(&self, turn: Turn<B>, entry: Option<B::Entry>) -> Pass<B>
        requires cell { IsOf self.now turn.pass }
        requires value { B.stands self.now.tag turn.value (with_entry turn.list turn.pass.number entry) }
        ensures { result ≡ record turn.pass { seen = with_entry turn.list turn.pass.number entry } }
    {
        let Turn {
            number,
            next,
            mut seat,
            value,
        } = turn;
        self.table.shared.exchange(&mut seat, VALUE, Some(value));
        self.release::<Brand>(&mut seat, &entry);
        Pass { number, next, seat }
    }

    /// The turn comes home with the entry that `P` picks. The argument is there for `give` to pick it by.
    fn release<P: PickedEntry<B::Entry>>(
        &self,
        seat: &mut Seat<Option<B>, SeatView<B::Entry, B::Tag>>,
        entry: &Option<B::Entry>,
    )
        requires cell { seat.old.table_id ≡ self.now.id }
        requires entry { P.entry ≡ entry.now }
        requires value { IsReadyToGive B.stands self.now.tag seat.old.me entry.now }
        ensures same { seat.new.table_id ≡ seat.old.table_id }
        ensures seat { GiveTells entry.now (step 0 0 0 0 none) seat.old.me 0 seat.new.me }
    {
        let _ = entry;
        self.table.shared.store::<Give<P>>(seat, TURN, HOME);
    }

    /// Splits a new pass off the first one. It has the next number and has seen as much. The first pass comes back
    /// where 4,294,967,295 numbers were made.
    pub fn split(&self, pass: Pass<B>) -> Result<(Pass<B>, Pass<B>), Pass<B>>
        requires cell { IsOf self.now pass }
        requires first { pass.number ≡ 0 }
        ensures passes { IfOk result (λ r. (r.0 ≡ split_pass pass) × (r.1 ≡ new_pass pass)) }
        ensures room { OnOk result (pass.next < u32.MAX) }
        ensures refused { IfErr result (λ p. (pass.next ≡ u32.MAX) × (p ≡ pass)) }
        ensures empty { IfOk result (λ r. mine r.1 ≡ []) }
        ensures below { IfOk result (λ r. IsBelow r.1.number r.1.seen × IsBelow r.0.next r.0.seen) }
    {
        let Pass {
            number,
            next,
            mut seat,
        } = pass;
        if next == u32::MAX {
            return Err(Pass { number, next, seat });
        }
        let drawn = u64::from(next);
        self.table
            .shared
            .compare_exchange::<Draw>(&mut seat, NUMBERS, drawn, drawn + 1);
        let new_seat = self.table.shared.split_seat::<Branch>(&mut seat);
        let first = Pass {
            number,
            next: next + 1,
            seat,
        };
        let new = Pass {
            number: next,
            next: 0,
            seat: new_seat,
        };
        Ok((first, new))
    }

    /// Spends the other pass. The first one keeps its number, what it gave, and the longer of what both had seen.
    pub fn join(&self, pass: Pass<B>, other: Pass<B>) -> Pass<B>
        requires cells { IsOf self.now pass × IsOf self.now other }
        requires first { pass.number ≡ 0 }
        ensures pass { result ≡ joined_pass pass other }
        ensures begins { IsPrefix pass.seen result.seen × IsPrefix other.seen result.seen }
        ensures mine { mine result ≡ mine pass }
        ensures itself { Extends result result.seen }
    {
        let Pass {
            number,
            next,
            mut seat,
        } = pass;
        let Pass {
            number: _,
            next: _,
            seat: other_seat,
        } = other;
        self.table.shared.join_seat::<Merge>(&mut seat, other_seat);
        self.table.shared.load::<Compare>(&mut seat, TURN);
        Pass { number, next, seat }
    }

    /// The value, which stands for a list that extends what the pass has seen. `None` comes where the turn is out: a
    /// pass that was never joined took it. So a whole pass always gets the value.
    pub fn close(self, pass: Pass<B>) -> Option<B>
        requires cell { IsOf self pass }
        requires first { pass.number ≡ 0 }
        ensures value { IfSome result
            (λ b. (list : History B.Entry) × B.stands self.tag b list × Extends pass list) }
        ensures out { IfNone result ((n : ℕ) × IsUnjoined pass n) }
        ensures whole { IsWholePass pass → IsSome result }
    {
        let Pass {
            number: _,
            next: _,
            seat,
        } = pass;
        let TurnCell { table } = self;
        let mut closed = table.close_with(seat);
        let word = closed.word(TURN);
        let value = closed.take(VALUE);
        closed.free();
        if word == HOME { value } else { None }
    }
}
