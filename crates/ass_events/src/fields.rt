//! The fields of a line that is cut at its commas.

ghost use Rattle.std.specs.Prelude.{◌≡◌, ◌≤◌, length, if◌then◌else◌, Some, None, IfSome, IfNone};
ghost use Rattle.std.specs.List.{position_or_len};
ghost use Rattle.ass_script.specs.Words.{is_comma};
ghost use Rattle.ass_events.specs.Plain.{plain, Reads};
ghost use Rattle.ass_events.specs.Fields.{no_fields, field_put, columns_of, examined};

use crate::event::ChunkRefusal;
use crate::numbers::{instant, number, order};
use crate::words::before_comma;
use ass_num::trimmed;
use ass_script::EventField;

/// What the fields of a line say. What is kept as a text is a part of the line.
#[derive(Clone, Copy)]
pub struct Fields<'a> {
    pub order: u32,
    pub layer: i32,
    pub start: i64,
    pub end: i64,
    pub style: &'a [u8],
    pub name: &'a [u8],
    pub margin_l: i32,
    pub margin_r: i32,
    pub margin_v: i32,
    pub effect: &'a [u8],
    pub text: &'a [u8],
}

impl<'a> Fields<'a> {
    /// Before any field of a line is read.
    fn new(line: &'a [u8]) -> Fields<'a>
        ensures { plain result ≡ no_fields }
    {
        let nothing = &line[..0];
        Fields {
            order: 0,
            layer: 0,
            start: 0,
            end: 0,
            style: nothing,
            name: nothing,
            margin_l: 0,
            margin_r: 0,
            margin_v: 0,
            effect: nothing,
            text: nothing,
        }
    }

    /// The fields with one more, or none where it can't be read.
    #[tactic(auto, unfolding(crate::specs::Fields::field_put))]
    fn with(self, field: EventField, piece: &'a [u8]) -> Option<Fields<'a>>
        ensures some { IfSome result (λ fields. field_put field piece.now (plain self.entry) ≡ Some (plain fields)) }
        ensures none { IfNone result (field_put field piece.now (plain self.entry) ≡ None) }
    {
        match field {
            EventField::ReadOrder => Some(Fields {
                order: order(piece)?,
                ..self
            }),
            EventField::Layer => Some(Fields {
                layer: number(piece)?,
                ..self
            }),
            EventField::Start => Some(Fields {
                start: instant(piece)?,
                ..self
            }),
            EventField::End => Some(Fields {
                end: instant(piece)?,
                ..self
            }),
            EventField::Style => Some(Fields {
                style: trimmed(piece),
                ..self
            }),
            EventField::Name => Some(Fields {
                name: trimmed(piece),
                ..self
            }),
            EventField::MarginL => Some(Fields {
                margin_l: number(piece)?,
                ..self
            }),
            EventField::MarginR => Some(Fields {
                margin_r: number(piece)?,
                ..self
            }),
            EventField::MarginV => Some(Fields {
                margin_v: number(piece)?,
                ..self
            }),
            EventField::Effect => Some(Fields {
                effect: trimmed(piece),
                ..self
            }),
            EventField::Text => Some(Fields {
                text: piece,
                ..self
            }),
            EventField::Duration | EventField::Utf8 | EventField::Other => Some(self),
        }
    }
}

/// How many bytes of a rest are its first field: all of them where it is the last.
fn piece_len(rest: &[u8], is_last: bool) -> usize
    ensures len { result ≡ (if is_last then length rest.now else position_or_len is_comma rest.now) }
    ensures within { result ≤ length rest.now }
{
    if is_last {
        rest.len()
    } else {
        before_comma(rest)
    }
}

/// What the fields of a line say, in the order of the format: the line is cut at its commas, but for those of the
/// last field. Where a field can't be read or is missing, the first such field and its place.
pub fn read_fields<'a>(format: &[EventField], line: &'a [u8]) -> Result<Fields<'a>, ChunkRefusal>
    ensures { Reads result (examined (columns_of format.now line.now) no_fields) }
{
    let mut fields = Fields::new(line);
    let mut place = 0;
    for (i, field) in format.iter().enumerate() {
        if place > line.len() {
            return Err(ChunkRefusal::Malformed(*field, line.len()));
        }
        let rest = &line[place..];
        let len = piece_len(rest, i + 1 == format.len());
        fields = match fields.with(*field, &rest[..len]) {
            Some(more) => more,
            None => return Err(ChunkRefusal::Malformed(*field, place)),
        };
        place += len + 1;
    }
    Ok(fields)
}
