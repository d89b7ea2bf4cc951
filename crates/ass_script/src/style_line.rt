//! Style lines.

ghost use Rattle.std.specs.Prelude.{◌≡◌, ◌≤◌, ◌⊎◌, OnOk, OnErr, IfOk, IfSome, length};
ghost use Rattle.ass_num.specs.Limits.{IsWithin, IsHeldNumber, IsHeldLength, max_whole};
ghost use Rattle.ass_script.specs.Numbers.{milli_of, style_colour_of};
ghost use Rattle.ass_script.specs.Ranges.{IsStyle};
ghost use Rattle.ass_script.specs.Styles.{bare_style, milli_or, size_or, margin_or, flag_or, border_style_or, alignment_or, old_alignment_or, colours_with};
ghost use Rattle.ass_script.specs.Styles.{with_field, style_of};

use crate::lines::Version;
use crate::style::{Style, built_in_style};
use crate::style_field::StyleField;
use ass_num::text_blanks::trimmed;
use ass_num::{Mem, Milli, Rgba, Text, colour_of, read_milli, read_style_colour, read_whole};
use std::alloc::Global;

/// The number at the front of a text, in thousandths.
fn milli(text: &str) -> Option<Milli>
    ensures value { result ≡ milli_of text.now }
    ensures range { IfSome result IsHeldNumber }
{
    let (number, _len) = read_milli(text.as_bytes())?;
    Some(number)
}

/// The colour at the front of a text.
fn style_colour(text: &str) -> Option<u32>
    ensures { result ≡ style_colour_of text.now }
{
    read_style_colour(text.as_bytes())
}

fn put_milli(place: &mut Milli, text: &str)
    requires { IsHeldNumber place.old }
    ensures value { place.new ≡ milli_or place.old text.now }
    ensures range { IsHeldNumber place.new }
{
    if let Some(number) = milli(text) {
        *place = number;
    }
}

/// Below 0 becomes 0.
fn put_size(place: &mut Milli, text: &str)
    requires { IsHeldLength place.old }
    ensures value { place.new ≡ size_or place.old text.now }
    ensures range { IsHeldLength place.new }
{
    if let Some(number) = milli(text) {
        *place = number.max(0);
    }
}

fn put_margin(place: &mut i32, text: &str)
    requires { IsWithin max_whole place.old }
    ensures value { place.new ≡ margin_or place.old text.now }
    ensures range { IsWithin max_whole place.new }
{
    if let Some(number) = read_whole(text.as_bytes()) {
        *place = number;
    }
}

/// On where the number isn't 0.
fn put_flag(place: &mut bool, text: &str)
    ensures { place.new ≡ flag_or place.old text.now }
{
    if let Some(number) = read_whole(text.as_bytes()) {
        *place = number != 0;
    }
}

fn put_border_style(place: &mut u8, text: &str)
    requires { (place.old ≡ 1) ⊎ (place.old ≡ 3) }
    ensures value { place.new ≡ border_style_or place.old text.now }
    ensures range { (place.new ≡ 1) ⊎ (place.new ≡ 3) }
{
    if let Some(number) = milli(text) {
        *place = if number == 3_000 { 3 } else { 1 };
    }
}

fn put_alignment(place: &mut u8, text: &str)
    requires some { 1 ≤ place.old }
    requires most { place.old ≤ 9 }
    ensures value { place.new ≡ alignment_or place.old text.now }
    ensures some { 1 ≤ place.new }
    ensures most { place.new ≤ 9 }
{
    if let Some(number) = milli(text) {
        *place = match number {
            1_000 => 1,
            2_000 => 2,
            3_000 => 3,
            4_000 => 4,
            5_000 => 5,
            6_000 => 6,
            7_000 => 7,
            8_000 => 8,
            9_000 => 9,
            _ => 2,
        };
    }
}

/// 1 to 3 at the bottom, 5 to 7 at the top, 9 to 11 in the middle.
fn put_old_alignment(place: &mut u8, text: &str)
    requires some { 1 ≤ place.old }
    requires most { place.old ≤ 9 }
    ensures value { place.new ≡ old_alignment_or place.old text.now }
    ensures some { 1 ≤ place.new }
    ensures most { place.new ≤ 9 }
{
    if let Some(number) = milli(text) {
        *place = match number {
            1_000 => 1,
            2_000 => 2,
            3_000 => 3,
            5_000 => 7,
            6_000 => 8,
            7_000 => 9,
            9_000 => 4,
            10_000 => 5,
            11_000 => 6,
            _ => 2,
        };
    }
}

/// The colours where a text says the one at a place.
fn with_colour(colours: [Rgba; 4], place: usize, text: &str) -> [Rgba; 4]
    requires { place ≤ 3 }
    ensures { result ≡ colours_with place colours text.now }
{
    let mut colours = colours;
    if let Some(number) = style_colour(text) {
        colours[place] = colour_of(number);
    }
    colours
}

/// What a Style line says that names no field.
fn bare_style(alloc: Global, version: Version) -> Mem<Style>
    ensures style { IfOk result (λ style. style ≡ bare_style version) }
    ensures range { IfOk result IsStyle }
{
    let mut style = built_in_style(alloc)?;
    if let Version::V4 = version {
        style.colours[2] = colour_of(0x8000_0000);
    }
    Ok(style)
}

impl Style {
    /// Says one field by its text.
    fn put(&mut self, alloc: Global, field: StyleField, text: &str) -> Mem<()>
        requires { IsStyle self.old }
        ensures value { OnOk result (self.new ≡ with_field field text.now self.old) }
        ensures range { OnOk result (IsStyle self.new) }
    {
        match field {
            StyleField::Name => self.name = Text::copy(alloc, text)?,
            StyleField::Font => self.font = Text::copy(alloc, text)?,
            StyleField::Size => put_size(&mut self.size, text),
            StyleField::PrimaryColour => self.colours = with_colour(self.colours, 0, text),
            StyleField::SecondaryColour => self.colours = with_colour(self.colours, 1, text),
            StyleField::OutlineColour => self.colours = with_colour(self.colours, 2, text),
            StyleField::BackColour => self.colours = with_colour(self.colours, 3, text),
            StyleField::Bold => put_flag(&mut self.bold, text),
            StyleField::Italic => put_flag(&mut self.italic, text),
            StyleField::Underline => put_flag(&mut self.underline, text),
            StyleField::Strikeout => put_flag(&mut self.strikeout, text),
            StyleField::ScaleX => put_size(&mut self.scale_x, text),
            StyleField::ScaleY => put_size(&mut self.scale_y, text),
            StyleField::Spacing => put_milli(&mut self.spacing, text),
            StyleField::Angle => put_milli(&mut self.angle, text),
            StyleField::BorderStyle => put_border_style(&mut self.border_style, text),
            StyleField::Outline => put_size(&mut self.outline, text),
            StyleField::Shadow => put_size(&mut self.shadow, text),
            StyleField::Alignment => put_alignment(&mut self.alignment, text),
            StyleField::OldAlignment => put_old_alignment(&mut self.alignment, text),
            StyleField::MarginL => put_margin(&mut self.margin_l, text),
            StyleField::MarginR => put_margin(&mut self.margin_r, text),
            StyleField::MarginV => put_margin(&mut self.margin_v, text),
            StyleField::Other => {}
        }
        Ok(())
    }
}

/// The style that a Style line spells under the fields of its Format.
pub fn style_line(alloc: Global, version: Version, fields: &[StyleField], value: &str) -> Mem<Style>
    ensures style { IfOk result (λ style. style ≡ style_of version fields.now value.now) }
    ensures range { IfOk result IsStyle }
{
    let mut style = bare_style(alloc, version)?;
    let mut place = 0;
    for piece in value.split(',') {
        if place == fields.len() {
            return Ok(style);
        }
        style.put(alloc, fields[place], trimmed(piece))?;
        place += 1;
    }
    Ok(style)
}
