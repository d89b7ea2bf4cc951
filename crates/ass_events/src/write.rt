//! The bytes of chunks.

ghost use Rattle.std.specs.Prelude.{◌≡◌, ◌++◌, IfOk, codes, string_bytes};
ghost use Rattle.std.specs.Fmt.{decimal, signed_decimal};
ghost use Rattle.ass_events.specs.Plain.{plain};
ghost use Rattle.ass_events.specs.Events.{chunk_bytes, fields_bytes};

use crate::event::Event;
use crate::fields::Fields;
use ass_num::Mem;
use std::alloc::Global;

/// The bytes of an event's chunk, `ReadOrder,Layer,Style,Name,MarginL,MarginR,MarginV,Effect,Text`, with plain decimal
/// numbers. An event that a chunk gave is read back from them, with its time beside them.
pub fn write_chunk(alloc: Global, event: &Event) -> Mem<Vec<u8>>
    ensures { IfOk result (λ bytes. bytes.items ≡ chunk_bytes event.now) }
{
    let fields = Fields {
        order: event.order,
        layer: event.layer,
        start: event.start,
        end: event.start,
        style: event.style.as_str().as_bytes(),
        name: event.name.as_str().as_bytes(),
        margin_l: event.margin_l,
        margin_r: event.margin_r,
        margin_v: event.margin_v,
        effect: event.effect.as_str().as_bytes(),
        text: event.text.as_str().as_bytes(),
    };
    write_fields(alloc, event.order, &fields)
}

/// What stands before the style.
fn head(alloc: Global, order: u32, layer: i32) -> Mem<String>
    ensures { IfOk result (λ head. string_bytes head ≡ decimal order ++ codes "," ++ signed_decimal layer ++ codes ",") }
{
    Ok(format!(in alloc; "{order},{layer},")?)
}

/// What stands between the name and the effect.
fn margins(alloc: Global, l: i32, r: i32, v: i32) -> Mem<String>
    ensures { IfOk result (λ margins. string_bytes margins
        ≡ codes "," ++ signed_decimal l ++ codes "," ++ signed_decimal r ++ codes "," ++ signed_decimal v ++ codes ",") }
{
    Ok(format!(in alloc; ",{l},{r},{v},")?)
}

/// The bytes of the chunk of these fields with this ReadOrder.
pub fn write_fields(alloc: Global, order: u32, fields: &Fields) -> Mem<Vec<u8>>
    ensures { IfOk result (λ bytes. bytes.items ≡ fields_bytes order (plain fields.now)) }
{
    let head = head(alloc, order, fields.layer)?;
    let margins = margins(alloc, fields.margin_l, fields.margin_r, fields.margin_v)?;
    let len = head
        .len()
        .saturating_add(fields.style.len())
        .saturating_add(fields.name.len())
        .saturating_add(margins.len())
        .saturating_add(fields.effect.len())
        .saturating_add(fields.text.len())
        .saturating_add(2);
    let mut bytes = Vec::with_capacity(alloc, len)?;
    bytes.extend_from_slice(head.as_bytes())?;
    bytes.extend_from_slice(fields.style)?;
    bytes.push(b',')?;
    bytes.extend_from_slice(fields.name)?;
    bytes.extend_from_slice(margins.as_bytes())?;
    bytes.extend_from_slice(fields.effect)?;
    bytes.push(b',')?;
    bytes.extend_from_slice(fields.text)?;
    Ok(bytes)
}
