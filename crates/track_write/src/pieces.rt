//! The fields of a line, and lines of fields.

ghost use Rattle.std.specs.Prelude.{◌≡◌, ◌∷◌, ◌++◌, OnOk, map};
ghost use Rattle.track_write.specs.Pieces.{piece_text, next_field};
ghost use Rattle.track_write.specs.Rows.{row};

use crate::numbers::{put_colour, put_flag, put_milli, put_time, put_whole};
use ass_num::{Mem, Milli, Rgba, Text};
use std::alloc::Global;

/// What a field says.
#[derive(Clone, Copy)]
pub enum Piece<'a> {
    Text(&'a Text),
    Whole(&'a i32),
    Small(u8),
    Milli(&'a Milli),
    Colour(Rgba),
    Flag(bool),
    /// In milliseconds.
    Time(&'a i64),
    /// The number 1.
    Encoding,
}

fn put_piece(alloc: Global, text: &mut Vec<u8>, piece: &Piece<'_>) -> Mem<()>
    ensures { OnOk result (text.new.items ≡ text.old.items ++ piece_text piece.now) }
{
    match *piece {
        Piece::Text(part) => {
            text.extend_from_slice(part.as_str().as_bytes())?;
            Ok(())
        }
        Piece::Whole(number) => put_whole(alloc, text, i64::from(*number)),
        Piece::Small(number) => put_whole(alloc, text, i64::from(number)),
        Piece::Milli(number) => put_milli(alloc, text, *number),
        Piece::Colour(colour) => put_colour(text, colour),
        Piece::Flag(flag) => put_flag(text, flag),
        Piece::Time(time) => put_time(alloc, text, *time),
        Piece::Encoding => {
            text.extend_from_slice(b"1")?;
            Ok(())
        }
    }
}

/// A comma and a field.
fn put_next(alloc: Global, text: &mut Vec<u8>, piece: &Piece<'_>) -> Mem<()>
    ensures { OnOk result (text.new.items ≡ text.old.items ++ next_field piece.now) }
{
    text.push(b',')?;
    put_piece(alloc, text, piece)
}

/// Fields, separated by commas.
pub fn put_row(alloc: Global, text: &mut Vec<u8>, first: &Piece<'_>, rest: &[Piece<'_>]) -> Mem<()>
    ensures { OnOk result (text.new.items ≡ text.old.items ++ row (piece_text first.now ∷ map piece_text rest.now)) }
{
    put_piece(alloc, text, first)?;
    for piece in rest {
        put_next(alloc, text, piece)?;
    }
    Ok(())
}
