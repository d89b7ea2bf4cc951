//! The fields of Style lines.

ghost use Rattle.std.specs.Prelude.{◌≡◌};
ghost use Rattle.ass_script.specs.Fields.{version_field, flag_or_margin_named, shape_named, style_field_named};

use crate::lines::Version;
use crate::words::same_name;

/// A field of a Style line (ASS specification, "Style lines, [v4+ Styles] section").
#[derive(Clone, Copy)]
pub enum StyleField {
    Name,
    Font,
    Size,
    PrimaryColour,
    SecondaryColour,
    OutlineColour,
    BackColour,
    Bold,
    Italic,
    Underline,
    Strikeout,
    ScaleX,
    ScaleY,
    Spacing,
    Angle,
    BorderStyle,
    Outline,
    Shadow,
    Alignment,
    /// The alignment as `[V4 Styles]` numbers it.
    OldAlignment,
    MarginL,
    MarginR,
    MarginV,
    /// A field of any other name.
    Other,
}

#[tactic(auto, unfolding(crate::specs::Fields::flag_or_margin_named))]
fn flag_or_margin_named(name: &str) -> StyleField
    ensures { result ≡ flag_or_margin_named name.now }
{
    if same_name(name, "Bold") {
        return StyleField::Bold;
    }
    if same_name(name, "Italic") {
        return StyleField::Italic;
    }
    if same_name(name, "Underline") {
        return StyleField::Underline;
    }
    if same_name(name, "StrikeOut") {
        return StyleField::Strikeout;
    }
    if same_name(name, "MarginL") {
        return StyleField::MarginL;
    }
    if same_name(name, "MarginR") {
        return StyleField::MarginR;
    }
    if same_name(name, "MarginV") {
        return StyleField::MarginV;
    }
    StyleField::Other
}

#[tactic(auto, unfolding(crate::specs::Fields::shape_named))]
fn shape_named(name: &str) -> StyleField
    ensures { result ≡ shape_named name.now }
{
    if same_name(name, "ScaleX") {
        return StyleField::ScaleX;
    }
    if same_name(name, "ScaleY") {
        return StyleField::ScaleY;
    }
    if same_name(name, "Spacing") {
        return StyleField::Spacing;
    }
    if same_name(name, "Angle") {
        return StyleField::Angle;
    }
    if same_name(name, "BorderStyle") {
        return StyleField::BorderStyle;
    }
    if same_name(name, "Outline") {
        return StyleField::Outline;
    }
    if same_name(name, "Shadow") {
        return StyleField::Shadow;
    }
    if same_name(name, "Alignment") {
        return StyleField::Alignment;
    }
    flag_or_margin_named(name)
}

#[tactic(auto, unfolding(crate::specs::Fields::style_field_named))]
fn style_field_named(name: &str) -> StyleField
    ensures { result ≡ style_field_named name.now }
{
    if same_name(name, "Name") {
        return StyleField::Name;
    }
    if same_name(name, "Fontname") {
        return StyleField::Font;
    }
    if same_name(name, "Fontsize") {
        return StyleField::Size;
    }
    if same_name(name, "PrimaryColour") {
        return StyleField::PrimaryColour;
    }
    if same_name(name, "SecondaryColour") {
        return StyleField::SecondaryColour;
    }
    if same_name(name, "OutlineColour") {
        return StyleField::OutlineColour;
    }
    if same_name(name, "BackColour") {
        return StyleField::BackColour;
    }
    shape_named(name)
}

/// The field of a name in a section of styles. In `[V4 Styles]` the outline has the back colour and no colour of its
/// own, and alignments are numbered otherwise.
pub fn version_field(version: Version, name: &str) -> StyleField
    ensures { result ≡ version_field version (style_field_named name.now) }
{
    let field = style_field_named(name);
    match (version, field) {
        (Version::V4, StyleField::OutlineColour) => StyleField::Other,
        (Version::V4, StyleField::BackColour) => StyleField::OutlineColour,
        (Version::V4, StyleField::Alignment) => StyleField::OldAlignment,
        _ => field,
    }
}
