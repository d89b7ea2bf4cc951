//! Format lines of events.

ghost use Rattle.std.specs.Prelude.{◌≡◌, true, IfOk, IfSome};
ghost use Rattle.std.specs.Option.{option_map_or};
ghost use Rattle.ass_script.specs.Fields.{event_margin_named, event_field_named, event_fields_of, ends_in_text, usual_event_fields};

use crate::fields::last_ones;
use crate::lines::Version;
use crate::script::EventField;
use crate::words::same_name;
use ass_num::text_blanks::trimmed;
use ass_num::{Items, Mem};
use std::alloc::Global;

const USUAL: [EventField; 10] = [
    EventField::Layer,
    EventField::Start,
    EventField::End,
    EventField::Style,
    EventField::Name,
    EventField::MarginL,
    EventField::MarginR,
    EventField::MarginV,
    EventField::Effect,
    EventField::Text,
];

/// The first field is `Marked`.
const OLD_USUAL: [EventField; 10] = [
    EventField::Other,
    EventField::Start,
    EventField::End,
    EventField::Style,
    EventField::Name,
    EventField::MarginL,
    EventField::MarginR,
    EventField::MarginV,
    EventField::Effect,
    EventField::Text,
];

#[tactic(auto, unfolding(crate::specs::Fields::event_margin_named))]
fn event_margin_named(name: &str) -> EventField
    ensures { result ≡ event_margin_named name.now }
{
    if same_name(name, "MarginL") {
        return EventField::MarginL;
    }
    if same_name(name, "MarginR") {
        return EventField::MarginR;
    }
    if same_name(name, "MarginV") {
        return EventField::MarginV;
    }
    EventField::Other
}

#[tactic(auto, unfolding(crate::specs::Fields::event_field_named))]
fn event_field_named(name: &str) -> EventField
    ensures { result ≡ event_field_named name.now }
{
    if same_name(name, "Layer") {
        return EventField::Layer;
    }
    if same_name(name, "Start") {
        return EventField::Start;
    }
    if same_name(name, "End") {
        return EventField::End;
    }
    if same_name(name, "Style") {
        return EventField::Style;
    }
    if same_name(name, "Name") {
        return EventField::Name;
    }
    if same_name(name, "Effect") {
        return EventField::Effect;
    }
    if same_name(name, "Text") {
        return EventField::Text;
    }
    event_margin_named(name)
}

/// The fields of event lines: those of the Format line that counts, or else the usual ones.
pub fn format_or_usual(
    alloc: Global,
    format: Option<Items<EventField>>,
    version: Version,
) -> Mem<Items<EventField>>
    requires { IfSome format (λ fields. ends_in_text fields ≡ true) }
    ensures fields { IfOk result (λ fields. fields ≡ option_map_or (λ given. given) format (usual_event_fields version)) }
    ensures text { IfOk result (λ fields. ends_in_text fields ≡ true) }
{
    if let Some(fields) = format {
        return Ok(fields);
    }
    let usual: &[EventField] = match version {
        Version::V4 => &OLD_USUAL,
        Version::V4Plus => &USUAL,
    };
    Ok(Items::from_vec(Vec::from_slice(alloc, usual)?))
}

/// The fields that a Format line of events names.
#[tactic(auto, unfolding(crate::specs::Fields::event_fields_of))]
pub fn event_fields(alloc: Global, value: &str) -> Mem<Items<EventField>>
    ensures { IfOk result (λ fields. fields ≡ event_fields_of value.now) }
{
    let mut fields = Vec::new(alloc);
    for name in value.split(',') {
        fields.push(event_field_named(trimmed(name)))?;
    }
    Ok(last_ones(fields, EventField::Other))
}

/// Whether the last field is the text.
pub fn ends_in_text(fields: &[EventField]) -> bool
    ensures { result ≡ ends_in_text fields.now }
{
    match fields.last() {
        Some(EventField::Text) => true,
        _ => false,
    }
}
