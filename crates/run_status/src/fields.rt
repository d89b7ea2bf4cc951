//! The names of the fields of event lines.

ghost use Rattle.std.specs.Prelude.{◌≡◌};
ghost use Rattle.run_status.specs.Fields.{field_name};

use ass_script::EventField;

/// The name of a field, as reports have it.
pub fn field_name(field: EventField) -> &'static str
    ensures { result.now ≡ field_name field }
{
    match field {
        EventField::ReadOrder => "ReadOrder",
        EventField::Layer => "Layer",
        EventField::Start => "Start",
        EventField::End => "End",
        EventField::Duration => "Duration",
        EventField::Style => "Style",
        EventField::Name => "Name",
        EventField::MarginL => "MarginL",
        EventField::MarginR => "MarginR",
        EventField::MarginV => "MarginV",
        EventField::Effect => "Effect",
        EventField::Text => "Text",
        EventField::Utf8 => "Utf8",
        EventField::Other => "Other",
    }
}
