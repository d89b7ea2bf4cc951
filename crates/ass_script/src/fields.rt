//! The fields that a Format line names.

ghost use Rattle.std.specs.Prelude.{◌≡◌};
ghost use Rattle.ass_script.specs.Fields.{last_ones, event_field_number, style_field_number};

use crate::script::EventField;
use crate::style_field::StyleField;
use ass_num::Items;

/// How many numbers there are for the fields of one kind of line.
const NUMBERS: usize = 32;

/// A field of a kind of line.
pub trait Field: Copy + Drop {
    ghost number_of: { Self → ℕ };

    ghost use Rattle.std.specs.Prelude.{ℕ, ◌≡◌, ◌<◌};

    /// A number of its own.
    fn number(self) -> u8
        ensures value { result ≡ number_of self }
        ensures range { result < 32 };
}

impl Field for StyleField {
    ghost number_of = { style_field_number };

    fn number(self) -> u8 {
        self as u8
    }
}

impl Field for EventField {
    ghost number_of = { event_field_number };

    fn number(self) -> u8 {
        self as u8
    }
}

/// Of fields that stand twice keeps the last; an earlier one becomes `other`.
fn keep_last<F: Field>(fields: &mut [F], other: F)
    ensures { fields.new ≡ last_ones F.number_of other fields.old }
{
    let mut seen = [false; NUMBERS];
    let mut k = fields.len();
    while k > 0 {
        k -= 1;
        let number = fields[k].number() as usize;
        if seen[number] {
            fields[k] = other;
        } else {
            seen[number] = true;
        }
    }
}

/// The fields of a Format line, where those that stand twice are kept at the last place alone.
pub fn last_ones<F: Field>(fields: Vec<F>, other: F) -> Items<F>
    ensures { result ≡ last_ones F.number_of other fields.items }
{
    let mut fields = fields;
    keep_last(fields.as_mut_slice(), other);
    Items::from_vec(fields)
}
