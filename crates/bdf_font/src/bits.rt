//! The bytes of a bitmap while its rows are read.

ghost use Rattle.std.specs.Prelude.{◌≡◌, ◌+◌, ◌≤◌, ℕ, List, [], ◌++◌, length, take, IfOk, OnOk};
ghost use Rattle.hex.specs.Hex.{decode_sized};
ghost use Rattle.bdf_font.specs.Rows.{Gives, row_pushed};

use crate::cause::{FontCause, Stop};
use ass_num::{Items, Mem};
use std::alloc::Global;
use std::marker::Model;

/// The bytes of the rows so far, in a list that may have room for the others.
#[derive(Debug, Drop)]
pub struct Bits {
    bytes: Vec<u8>,
    filled: usize,
}

impl Model for Bits {
    ghost use Rattle.std.specs.Prelude.{List, ℕ, take};

    ghost Value = { List ℕ };

    ghost view = { λ b. take b.filled b.bytes.items };
}

/// Room for so many bytes.
fn reserve(bytes: &mut Vec<u8>, len: usize) -> Mem<()>
    ensures { OnOk result ((more : List ℕ) × (bytes.new.items ≡ bytes.old.items ++ more) × (len ≤ length bytes.new.items)) }
{
    if bytes.len() < len {
        bytes.resize(len, 0)?;
    }
    Ok(())
}

/// Writes the bytes that a row's digits spell.
fn decode_row(digits: &[u8], row: &mut [u8]) -> Result<(), Stop>
    ensures row { Gives result row.new (row_pushed (decode_sized digits.now (length row.old)) []) }
    ensures len { length row.new ≡ length row.old }
{
    if hex::decode_to_slice(digits, row).is_err() {
        return Err(Stop::Fault(FontCause::BadRow));
    }
    Ok(())
}

/// Writes a row behind the first bytes.
fn write_row(bytes: &mut [u8], begin: usize, digits: &[u8], len: usize) -> Result<(), Stop>
    requires row { len ≤ 8192 }
    requires room { begin + len ≤ length bytes.old }
    ensures row { Gives result (take (begin + len) bytes.new) (row_pushed (decode_sized digits.now len) (take begin bytes.old)) }
    ensures len { length bytes.new ≡ length bytes.old }
{
    decode_row(digits, &mut bytes[begin..begin + len])
}

impl Bits {
    /// No bytes.
    pub fn new(alloc: Global) -> Bits
        ensures { result ≡ [] }
    {
        Bits {
            bytes: Vec::new(alloc),
            filled: 0,
        }
    }

    /// No bytes, and room for so many.
    pub fn with_room(alloc: Global, bytes: usize) -> Mem<Bits>
        ensures { IfOk result (λ bits. bits ≡ []) }
    {
        let mut room = Vec::with_capacity(alloc, bytes)?;
        room.resize(bytes, 0)?;
        Ok(Bits {
            bytes: room,
            filled: 0,
        })
    }

    /// The bytes; nothing is copied.
    pub fn into_items(self) -> Items<u8>
        ensures { result ≡ self }
    {
        let mut bytes = self.bytes;
        bytes.truncate(self.filled);
        Items::from_vec(bytes)
    }

    /// Adds a row of so many bytes, which these digits spell.
    pub fn push_row(&mut self, digits: &[u8], len: usize) -> Result<(), Stop>
        requires { len ≤ 8192 }
        ensures row { Gives result self.new (row_pushed (decode_sized digits.now len) self.old) }
        ensures len { OnOk result (length self.new ≡ length self.old + len) }
    {
        let begin = self.filled.min(self.bytes.len());
        let end = begin + len;
        reserve(&mut self.bytes, end)?;
        write_row(&mut self.bytes, begin, digits, len)?;
        self.filled = end;
        Ok(())
    }
}
