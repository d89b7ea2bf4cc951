//! Format lines of styles.

ghost use Rattle.std.specs.Prelude.{◌≡◌, IfOk};
ghost use Rattle.ass_script.specs.Fields.{style_fields_of, usual_style_fields};

use crate::fields::last_ones;
use crate::lines::Version;
use crate::style_field::{StyleField, version_field};
use ass_num::text_blanks::trimmed;
use ass_num::{Items, Mem};
use std::alloc::Global;

const USUAL: [StyleField; 23] = [
    StyleField::Name,
    StyleField::Font,
    StyleField::Size,
    StyleField::PrimaryColour,
    StyleField::SecondaryColour,
    StyleField::OutlineColour,
    StyleField::BackColour,
    StyleField::Bold,
    StyleField::Italic,
    StyleField::Underline,
    StyleField::Strikeout,
    StyleField::ScaleX,
    StyleField::ScaleY,
    StyleField::Spacing,
    StyleField::Angle,
    StyleField::BorderStyle,
    StyleField::Outline,
    StyleField::Shadow,
    StyleField::Alignment,
    StyleField::MarginL,
    StyleField::MarginR,
    StyleField::MarginV,
    StyleField::Other,
];

const OLD_USUAL: [StyleField; 18] = [
    StyleField::Name,
    StyleField::Font,
    StyleField::Size,
    StyleField::PrimaryColour,
    StyleField::SecondaryColour,
    StyleField::Other,
    StyleField::OutlineColour,
    StyleField::Bold,
    StyleField::Italic,
    StyleField::BorderStyle,
    StyleField::Outline,
    StyleField::Shadow,
    StyleField::OldAlignment,
    StyleField::MarginL,
    StyleField::MarginR,
    StyleField::MarginV,
    StyleField::Other,
    StyleField::Other,
];

/// The fields of Style lines where no Format line stands before.
pub fn usual_style_fields(version: Version) -> &'static [StyleField]
    ensures { result.now ≡ usual_style_fields version }
{
    match version {
        Version::V4 => &OLD_USUAL,
        Version::V4Plus => &USUAL,
    }
}

/// The fields that a Format line of styles names.
#[tactic(auto, unfolding(crate::specs::Fields::style_fields_of))]
pub fn style_fields(alloc: Global, version: Version, value: &str) -> Mem<Items<StyleField>>
    ensures { IfOk result (λ fields. fields ≡ style_fields_of version value.now) }
{
    let mut fields = Vec::new(alloc);
    for name in value.split(',') {
        fields.push(version_field(version, trimmed(name)))?;
    }
    Ok(last_ones(fields, StyleField::Other))
}
