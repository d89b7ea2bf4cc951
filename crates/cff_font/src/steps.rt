//! The steps of the machine, one number or operator each.

ghost use Rattle.std.specs.Prelude.{◌≡◌, ◌≤◌, IfOk, IfSome};
ghost use Rattle.cff_font.specs.Machines.{moved_by, behind_strokes, behind_drawing, behind_operator, behind_code, behind_step, run};
ghost use Rattle.cff_font.specs.Glyphs.{max_steps};
ghost use Rattle.cff_font.specs.Ranges.{IsMachine, IsProgram};
ghost use Rattle.cff_font.specs.Tokens.{behind_token};

use crate::lists::first_items;
use crate::machine::{
    Machine, Program, behind_end, behind_hints, behind_mask, called, charstring_token,
    operand_before_last, returned, with_operand,
};
use crate::operators::strokes_of;
use crate::pens::{drawn_strokes, moved_pen};
use crate::tokens::{Span, Token};
use ass_num::{Mem, Point};
use font_bytes::u8_at;
use std::alloc::Global;

/// The most numbers and operators of a glyph.
const MAX_STEPS: usize = 65_536;

/// The operator dotsection (12 0), an old hint without operands.
const DOT_SECTION: u16 = 3_072;

/// A move, which needs so many operands.
fn moved_by(machine: Machine, least: usize, step: Point) -> Mem<Option<Machine>>
    requires { IsMachine machine }
    ensures value { IfOk result (λ behind. behind ≡ moved_by machine least step) }
    ensures within { IfOk result (λ behind. IfSome behind IsMachine) }
{
    if machine.operands.len() < least {
        return Ok(None);
    }
    let mut machine = machine;
    match moved_pen(machine.pen, step)? {
        Some(pen) => {
            machine.operands = first_items(machine.operands, 0);
            machine.pen = pen;
            Ok(Some(machine))
        }
        None => Ok(None),
    }
}

/// The machine behind a path operator.
fn behind_strokes(alloc: Global, machine: Machine, code: u16) -> Mem<Option<Machine>>
    requires { IsMachine machine }
    ensures value { IfOk result (λ behind. behind ≡ behind_strokes machine code) }
    ensures within { IfOk result (λ behind. IfSome behind IsMachine) }
{
    let mut machine = machine;
    let Some(strokes) = strokes_of(alloc, code, machine.operands.as_slice())? else {
        return Ok(None);
    };
    match drawn_strokes(machine.pen, strokes.as_slice())? {
        Some(pen) => {
            machine.operands = first_items(machine.operands, 0);
            machine.pen = pen;
            Ok(Some(machine))
        }
        None => Ok(None),
    }
}

/// The machine behind rmoveto, hmoveto, vmoveto or a path operator.
fn behind_drawing(alloc: Global, machine: Machine, code: u16) -> Mem<Option<Machine>>
    requires { IsMachine machine }
    ensures value { IfOk result (λ behind. behind ≡ behind_drawing machine code) }
    ensures within { IfOk result (λ behind. IfSome behind IsMachine) }
{
    let before = operand_before_last(machine.operands.as_slice(), 1);
    let last = operand_before_last(machine.operands.as_slice(), 0);
    match code {
        21 => moved_by(machine, 2, Point { x: before, y: last }),
        22 => moved_by(machine, 1, Point { x: last, y: 0 }),
        4 => moved_by(machine, 1, Point { x: 0, y: last }),
        _ => behind_strokes(alloc, machine, code),
    }
}

/// The machine behind an operator.
fn behind_operator(
    alloc: Global,
    bytes: &[u8],
    program: &Program,
    machine: Machine,
    code: u16,
) -> Mem<Option<Machine>>
    requires program { IsProgram program.now }
    requires machine { IsMachine machine }
    ensures value { IfOk result (λ behind. behind ≡ behind_operator bytes.now program.now machine code) }
    ensures within { IfOk result (λ behind. IfSome behind IsMachine) }
{
    if code == 1 || code == 3 || code == 18 || code == 23 || code == DOT_SECTION {
        return Ok(behind_hints(machine));
    }
    if code == 19 || code == 20 {
        // The operands of a mask are hints too.
        return match behind_hints(machine) {
            Some(hinted) => Ok(behind_mask(hinted)),
            None => Ok(None),
        };
    }
    match code {
        10 => called(bytes, &program.own, machine),
        29 => called(bytes, &program.shared, machine),
        11 => Ok(returned(false, machine)),
        14 => Ok(behind_end(machine)),
        _ => behind_drawing(alloc, machine, code),
    }
}

/// The machine behind a number or an operator.
fn behind_code(
    alloc: Global,
    bytes: &[u8],
    program: &Program,
    machine: Machine,
    token: Token,
) -> Mem<Option<Machine>>
    requires program { IsProgram program.now }
    requires machine { IsMachine machine }
    requires before { behind_token token ≤ machine.place.to }
    ensures value { IfOk result (λ behind. behind ≡ behind_code bytes.now program.now machine token) }
    ensures within { IfOk result (λ behind. IfSome behind IsMachine) }
{
    let mut machine = machine;
    machine.place = Span {
        from: token.behind(),
        to: machine.place.to,
    };
    match token {
        Token::Number(value, _) => with_operand(machine, value),
        Token::Operator(code, _) => behind_operator(alloc, bytes, program, machine, code),
    }
}

/// The machine behind its next number or operator, or behind the end of a charstring.
fn behind_step(
    alloc: Global,
    bytes: &[u8],
    program: &Program,
    machine: Machine,
) -> Mem<Option<Machine>>
    requires program { IsProgram program.now }
    requires machine { IsMachine machine }
    ensures value { IfOk result (λ behind. behind ≡ behind_step bytes.now program.now machine) }
    ensures within { IfOk result (λ behind. IfSome behind IsMachine) }
{
    let place = machine.place;
    if place.to <= place.from {
        return Ok(returned(true, machine));
    }
    match charstring_token(bytes, place.to, place.from, u8_at(bytes, place.from)) {
        Some(token) => behind_code(alloc, bytes, program, machine, token),
        None => Ok(None),
    }
}

/// The machine when it is done; `None` where the charstring is broken or has too many numbers and operators.
pub fn run(alloc: Global, bytes: &[u8], program: &Program, machine: Machine) -> Mem<Option<Machine>>
    requires program { IsProgram program.now }
    requires machine { IsMachine machine }
    ensures { IfOk result (λ done. done ≡ run bytes.now program.now max_steps machine) }
{
    let mut machine = machine;
    for _k in 0..MAX_STEPS {
        if machine.is_done {
            return Ok(Some(machine));
        }
        match behind_step(alloc, bytes, program, machine)? {
            Some(behind) => machine = behind,
            None => return Ok(None),
        }
    }
    Ok(None)
}
