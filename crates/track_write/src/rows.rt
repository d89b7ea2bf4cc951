//! Lines of styles and of events.

ghost use Rattle.std.specs.Prelude.{◌≡◌, ◌∷◌, ◌++◌, OnOk, map, All};
ghost use Rattle.std.specs.Arc.{arc_value};
ghost use Rattle.std.specs.List.{flat_map};
ghost use Rattle.ass_events.specs.Ranges.{IsEvent};
ghost use Rattle.track_write.specs.Pieces.{piece_text};
ghost use Rattle.track_write.specs.Rows.{row, ended, event_end, style_line, dialogue_line};

use crate::pieces::{Piece, put_row};
use ass_events::Event;
use ass_num::Mem;
use ass_script::Style;
use std::alloc::Global;
use std::sync::Arc;

/// A line of fields behind its key.
fn put_line(
    alloc: Global,
    text: &mut Vec<u8>,
    key: &[u8],
    first: &Piece<'_>,
    rest: &[Piece<'_>],
) -> Mem<()>
    ensures { OnOk result (text.new.items ≡ text.old.items ++ ended (key.now ++ row (piece_text first.now ∷ map piece_text rest.now))) }
{
    text.extend_from_slice(key)?;
    put_row(alloc, text, first, rest)?;
    text.push(b'\n')?;
    Ok(())
}

/// The line of a style.
fn put_style(alloc: Global, text: &mut Vec<u8>, style: &Style) -> Mem<()>
    ensures { OnOk result (text.new.items ≡ text.old.items ++ ended (style_line style.now)) }
{
    put_line(
        alloc,
        text,
        b"Style: ",
        &Piece::Text(&style.name),
        &[
            Piece::Text(&style.font),
            Piece::Milli(&style.size),
            Piece::Colour(style.colours[0]),
            Piece::Colour(style.colours[1]),
            Piece::Colour(style.colours[2]),
            Piece::Colour(style.colours[3]),
            Piece::Flag(style.bold),
            Piece::Flag(style.italic),
            Piece::Flag(style.underline),
            Piece::Flag(style.strikeout),
            Piece::Milli(&style.scale_x),
            Piece::Milli(&style.scale_y),
            Piece::Milli(&style.spacing),
            Piece::Milli(&style.angle),
            Piece::Small(style.border_style),
            Piece::Milli(&style.outline),
            Piece::Milli(&style.shadow),
            Piece::Small(style.alignment),
            Piece::Whole(&style.margin_l),
            Piece::Whole(&style.margin_r),
            Piece::Whole(&style.margin_v),
            Piece::Encoding,
        ],
    )?;
    Ok(())
}

/// The lines of styles.
pub fn put_styles(alloc: Global, text: &mut Vec<u8>, styles: &[Style]) -> Mem<()>
    ensures { OnOk result (text.new.items ≡ text.old.items ++ flat_map ended (map style_line styles.now)) }
{
    for style in styles {
        put_style(alloc, text, style)?;
    }
    Ok(())
}

/// When an event ends, in milliseconds.
fn end_of(event: &Event) -> i64
    requires { IsEvent event.now }
    ensures { result ≡ event_end event.now }
{
    event.start + event.duration
}

/// The line of an event.
fn put_event(alloc: Global, text: &mut Vec<u8>, event: &Event) -> Mem<()>
    requires { IsEvent event.now }
    ensures { OnOk result (text.new.items ≡ text.old.items ++ ended (dialogue_line event.now)) }
{
    let end = end_of(event);
    put_line(
        alloc,
        text,
        b"Dialogue: ",
        &Piece::Whole(&event.layer),
        &[
            Piece::Time(&event.start),
            Piece::Time(&end),
            Piece::Text(&event.style),
            Piece::Text(&event.name),
            Piece::Whole(&event.margin_l),
            Piece::Whole(&event.margin_r),
            Piece::Whole(&event.margin_v),
            Piece::Text(&event.effect),
            Piece::Text(&event.text),
        ],
    )?;
    Ok(())
}

/// The lines of events.
pub fn put_events(alloc: Global, text: &mut Vec<u8>, events: &[Arc<Event>]) -> Mem<()>
    requires { All IsEvent (map arc_value events.now) }
    ensures { OnOk result (text.new.items ≡ text.old.items ++ flat_map ended (map dialogue_line (map arc_value events.now))) }
{
    for event in events {
        put_event(alloc, text, event)?;
    }
    Ok(())
}
