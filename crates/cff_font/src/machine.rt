//! The machine that runs charstrings of type 2: its state, and what the operators do that draw nothing.

ghost use Rattle.std.specs.Prelude.{◌≡◌, ◌<◌, ◌^◌, pos, IfOk, IfSome};
ghost use Rattle.cff_font.specs.Machines.{in_fractions, charstring_token, returned, operand_before_last, behind_hints, behind_mask};
ghost use Rattle.cff_font.specs.Machines.{bias_of, subroutine_named, called, behind_end, with_operand, first_machine};
ghost use Rattle.cff_font.specs.Ranges.{IsFileIndex, IsMachine, IsFileSpan};
ghost use Rattle.cff_font.specs.Tokens.{IsShortToken};

use crate::indexes::{Index, item_at};
use crate::lists::first_items;
use crate::pens::{GlyphPen, first_pen};
use crate::tokens::{Span, Token, number_before, operator_at, s32_at, whole_number};
use ass_num::{Items, Mem};
use std::alloc::Global;

/// The most operands.
const MAX_OPERANDS: usize = 48;

/// The most hints.
const MAX_HINTS: usize = 96;

/// How deep calls may go.
const MAX_CALLS: usize = 10;

/// The subroutines that a charstring may call: those of all glyphs, and those of its own font DICT.
#[derive(Clone, Copy)]
pub struct Program {
    pub shared: Index,
    pub own: Index,
}

/// Where the machine stands in a charstring, behind which calls, its operands in 1/65,536, how many hints it met, what
/// it drew, and whether it is done.
#[derive(Drop)]
pub struct Machine {
    pub place: Span,
    pub calls: Items<Span>,
    pub operands: Items<i64>,
    pub hints: usize,
    pub pen: GlyphPen,
    pub is_done: bool,
}

/// The machine at the beginning of a charstring.
pub fn first_machine(alloc: Global, place: Span) -> Mem<Machine>
    requires { IsFileSpan place }
    ensures value { IfOk result (λ machine. machine ≡ first_machine place) }
    ensures within { IfOk result IsMachine }
{
    Ok(Machine {
        place,
        calls: Items::with_capacity(alloc, MAX_CALLS)?,
        operands: Items::with_capacity(alloc, MAX_OPERANDS)?,
        hints: 0,
        pen: first_pen(alloc),
        is_done: false,
    })
}

/// A whole number as one of the machine.
fn in_fractions(token: Token) -> Token
    requires { IsShortToken token }
    ensures { result ≡ in_fractions token }
{
    match token {
        Token::Number(value, behind) => Token::Number(value * 65_536, behind),
        Token::Operator(_, _) => token,
    }
}

/// The number or operator at a place of a charstring, whose first byte is b.
pub fn charstring_token(bytes: &[u8], stop: usize, at: usize, b: u8) -> Option<Token>
    requires { at < 2 ^ 39 }
    ensures { result ≡ charstring_token bytes.now stop at b }
{
    if b == 255 {
        return number_before(stop, at + 5, s32_at(bytes, at + 1));
    }
    if b < 32 && b != 28 {
        return operator_at(bytes, stop, at, b);
    }
    match whole_number(bytes, stop, at, b) {
        Some(token) => Some(in_fractions(token)),
        None => None,
    }
}

/// The last operand but k, or 0.
pub fn operand_before_last(operands: &[i64], k: usize) -> i64
    requires { k < 2 }
    ensures { result ≡ operand_before_last operands.now k }
{
    if operands.len() <= k {
        return 0;
    }
    operands[operands.len() - (k + 1)]
}

/// Back behind the last call; without one, the machine is done where it may be.
pub fn returned(may_end: bool, machine: Machine) -> Option<Machine>
    requires { IsMachine machine }
    ensures value { result ≡ returned may_end machine }
    ensures within { IfSome result IsMachine }
{
    let mut machine = machine;
    let n = machine.calls.len();
    if n > 0 {
        machine.place = machine.calls.as_slice()[n - 1];
        machine.calls = first_items(machine.calls, n - 1);
        return Some(machine);
    }
    if may_end {
        machine.is_done = true;
        return Some(machine);
    }
    None
}

/// Hints: half as many as there are operands.
pub fn behind_hints(machine: Machine) -> Option<Machine>
    requires { IsMachine machine }
    ensures value { result ≡ behind_hints machine }
    ensures within { IfSome result IsMachine }
{
    let mut machine = machine;
    let hints = machine.hints + machine.operands.len() / 2;
    if hints > MAX_HINTS {
        return None;
    }
    machine.operands = first_items(machine.operands, 0);
    machine.hints = hints;
    Some(machine)
}

/// A mask, which has a bit for each hint.
pub fn behind_mask(machine: Machine) -> Option<Machine>
    requires { IsMachine machine }
    ensures value { result ≡ behind_mask machine }
    ensures within { IfSome result IsMachine }
{
    let mut machine = machine;
    let from = machine.place.from + (machine.hints + 7) / 8;
    if machine.place.to < from {
        return None;
    }
    machine.place.from = from;
    Some(machine)
}

/// What a subroutine's number is written without.
fn bias_of(count: usize) -> i64
    ensures { result ≡ pos (bias_of count) }
{
    if count < 1_240 {
        return 107;
    }
    if count < 33_900 {
        return 1_131;
    }
    32_768
}

/// The subroutine that an operand names, which is a whole number, without the bias.
fn subroutine_named(bytes: &[u8], index: &Index, operand: i64) -> Option<Span>
    requires { IsFileIndex index.now }
    ensures value { result ≡ subroutine_named bytes.now index.now operand }
    ensures within { IfSome result IsFileSpan }
{
    if operand.rem_euclid(65_536) != 0 {
        return None;
    }
    let k = operand.div_euclid(65_536) + bias_of(index.count);
    if k < 0 {
        return None;
    }
    item_at(bytes, index, k.unsigned_abs() as usize)
}

/// At the beginning of a subroutine, whose number is the last operand.
pub fn called(bytes: &[u8], index: &Index, machine: Machine) -> Mem<Option<Machine>>
    requires index { IsFileIndex index.now }
    requires machine { IsMachine machine }
    ensures value { IfOk result (λ behind. behind ≡ called bytes.now index.now machine) }
    ensures within { IfOk result (λ behind. IfSome behind IsMachine) }
{
    let mut machine = machine;
    let count = machine.operands.len();
    if count == 0 || machine.calls.len() >= MAX_CALLS {
        return Ok(None);
    }
    let operand = operand_before_last(machine.operands.as_slice(), 0);
    let Some(body) = subroutine_named(bytes, index, operand) else {
        return Ok(None);
    };
    machine.calls.push(machine.place)?;
    machine.place = body;
    machine.operands = first_items(machine.operands, count - 1);
    Ok(Some(machine))
}

/// The end of a glyph, with no more operands than a width.
pub fn behind_end(machine: Machine) -> Option<Machine>
    requires { IsMachine machine }
    ensures value { result ≡ behind_end machine }
    ensures within { IfSome result IsMachine }
{
    if machine.operands.len() > 1 {
        return None;
    }
    let mut machine = machine;
    machine.is_done = true;
    Some(machine)
}

/// The machine behind a number.
pub fn with_operand(machine: Machine, value: i64) -> Mem<Option<Machine>>
    requires { IsMachine machine }
    ensures value { IfOk result (λ behind. behind ≡ with_operand machine value) }
    ensures within { IfOk result (λ behind. IfSome behind IsMachine) }
{
    if machine.operands.len() >= MAX_OPERANDS {
        return Ok(None);
    }
    let mut machine = machine;
    machine.operands.push(value)?;
    Ok(Some(machine))
}
