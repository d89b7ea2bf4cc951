//! Path operators.

ghost use Rattle.std.specs.Prelude.{◌≡◌, option_map, IfOk};
ghost use Rattle.cff_font.specs.Strokes.{curves_of, turning_lines, strokes_if, line_strokes, curves_then_line, lines_then_curve};
ghost use Rattle.cff_font.specs.Strokes.{even_strokes, turning_strokes, both_curves, escaped_strokes, four_strokes, strokes_of};

use crate::flex::{Flex, closed_flex, free_flex, level_flex};
use crate::strokes::{
    add_curves, add_even_curves_of, add_lines, add_turning_curves, add_turning_lines,
};
use ass_num::{Items, Mem};
use outline_points::Stroke;
use std::alloc::Global;

type Strokes = Mem<Option<Items<Stroke>>>;

/// The lines of rlineto.
fn line_strokes(alloc: Global, operands: &[i64]) -> Strokes
    ensures { IfOk result (λ strokes. strokes ≡ line_strokes operands.now) }
{
    if operands.len() % 2 != 0 {
        return Ok(None);
    }
    let mut strokes = Vec::new(alloc);
    add_lines(operands, &mut strokes)?;
    Ok(Some(Items::from_vec(strokes)))
}

/// The lines of hlineto or vlineto.
fn turning_lines(alloc: Global, is_level: bool, operands: &[i64]) -> Mem<Items<Stroke>>
    ensures { IfOk result (λ strokes. strokes ≡ turning_lines is_level operands.now) }
{
    let mut strokes = Vec::new(alloc);
    add_turning_lines(is_level, operands, &mut strokes)?;
    Ok(Items::from_vec(strokes))
}

/// Curves by six numbers each, where their count is one that the operator may have.
fn curves_if(alloc: Global, may: bool, operands: &[i64]) -> Strokes
    ensures { IfOk result (λ strokes. strokes ≡ strokes_if may (curves_of operands.now)) }
{
    if !may {
        return Ok(None);
    }
    let mut strokes = Vec::new(alloc);
    add_curves(operands, &mut strokes)?;
    Ok(Some(Items::from_vec(strokes)))
}

/// The curves and the line of rcurveline.
fn curves_then_line(alloc: Global, operands: &[i64]) -> Strokes
    ensures { IfOk result (λ strokes. strokes ≡ curves_then_line operands.now) }
{
    let n = operands.len();
    if n % 6 != 2 {
        return Ok(None);
    }
    let mut strokes = Vec::new(alloc);
    add_curves(operands, &mut strokes)?;
    add_lines(&operands[n - 2..], &mut strokes)?;
    Ok(Some(Items::from_vec(strokes)))
}

/// The lines and the curve of rlinecurve.
fn lines_then_curve(alloc: Global, operands: &[i64]) -> Strokes
    ensures { IfOk result (λ strokes. strokes ≡ lines_then_curve operands.now) }
{
    let n = operands.len();
    if n < 6 || n % 2 != 0 {
        return Ok(None);
    }
    let mut strokes = Vec::new(alloc);
    add_lines(&operands[..n - 6], &mut strokes)?;
    add_curves(&operands[n - 6..], &mut strokes)?;
    Ok(Some(Items::from_vec(strokes)))
}

/// The curves of hhcurveto or vvcurveto.
fn even_strokes(alloc: Global, is_level: bool, operands: &[i64]) -> Strokes
    ensures { IfOk result (λ strokes. strokes ≡ even_strokes is_level operands.now) }
{
    if operands.len() % 4 >= 2 {
        return Ok(None);
    }
    let mut strokes = Vec::new(alloc);
    add_even_curves_of(is_level, operands, &mut strokes)?;
    Ok(Some(Items::from_vec(strokes)))
}

/// The curves of hvcurveto or vhcurveto.
fn turning_strokes(alloc: Global, is_level: bool, operands: &[i64]) -> Strokes
    ensures { IfOk result (λ strokes. strokes ≡ turning_strokes is_level operands.now) }
{
    if operands.len() % 4 >= 2 {
        return Ok(None);
    }
    let mut strokes = Vec::new(alloc);
    add_turning_curves(is_level, operands, &mut strokes)?;
    Ok(Some(Items::from_vec(strokes)))
}

/// Both curves of a flex.
fn both_curves(alloc: Global, flex: Option<Flex>) -> Strokes
    ensures { IfOk result (λ strokes. strokes ≡ option_map both_curves flex) }
{
    let flex = match flex {
        Some(flex) => flex,
        None => return Ok(None),
    };
    let mut strokes = Items::with_capacity(alloc, 2)?;
    strokes.push(flex.first)?;
    strokes.push(flex.second)?;
    Ok(Some(strokes))
}

/// The curves of an operator of two bytes: hflex, flex, hflex1 or flex1.
fn escaped_strokes(alloc: Global, code: u16, operands: &[i64]) -> Strokes
    ensures { IfOk result (λ strokes. strokes ≡ escaped_strokes code operands.now) }
{
    match code {
        3_106 => both_curves(alloc, level_flex(operands)),
        // The last operand of flex is passed over.
        3_107 => curves_if(alloc, operands.len() == 13, operands),
        3_108 => both_curves(alloc, closed_flex(operands)),
        3_109 => both_curves(alloc, free_flex(operands)),
        _ => Ok(None),
    }
}

/// The curves of vvcurveto, hhcurveto, vhcurveto, hvcurveto or an operator of two bytes.
fn four_strokes(alloc: Global, code: u16, operands: &[i64]) -> Strokes
    ensures { IfOk result (λ strokes. strokes ≡ four_strokes code operands.now) }
{
    match code {
        26 => even_strokes(alloc, false, operands),
        27 => even_strokes(alloc, true, operands),
        30 => turning_strokes(alloc, false, operands),
        31 => turning_strokes(alloc, true, operands),
        _ => escaped_strokes(alloc, code, operands),
    }
}

/// The strokes of a path operator; `None` where it is no path operator, or has another count of operands.
pub fn strokes_of(alloc: Global, code: u16, operands: &[i64]) -> Strokes
    ensures { IfOk result (λ strokes. strokes ≡ strokes_of code operands.now) }
{
    match code {
        5 => line_strokes(alloc, operands),
        6 => Ok(Some(turning_lines(alloc, true, operands)?)),
        7 => Ok(Some(turning_lines(alloc, false, operands)?)),
        8 => curves_if(alloc, operands.len() % 6 == 0, operands),
        24 => curves_then_line(alloc, operands),
        25 => lines_then_curve(alloc, operands),
        _ => four_strokes(alloc, code, operands),
    }
}
