//! Scripts as values.

ghost use Rattle.std.specs.Prelude.{◌≡◌, ◌<◌, ◌≤◌, List, ℕ, length, slice_index_or, [], All, IfOk, IfSome};
ghost use Rattle.std.specs.BTreeMap.{get_by_text};
ghost use Rattle.ass_script.specs.Ranges.{IsStyle};
ghost use Rattle.ass_script.specs.Scripts.{last_named, style_for, style_place};

use crate::matrix::ScriptMatrix;
use crate::style::{Style, built_in_style};
use crate::words::bare_name;
use ass_num::{FlatLists, Items, Mem};
use std::alloc::Global;
use std::collections::BTreeMap;
use std::marker::Model;

/// What the lines of `[Script Info]` say (ASS specification, "Headerlines").
#[derive(Clone, Copy, Debug, PartialEq, Eq, Hash)]
pub struct Header {
    /// The width of the script's canvas in script pixels, from 1 to 16,384.
    pub res_x: u32,
    /// Its height, likewise.
    pub res_y: u32,
    /// The wrap style, from 0 to 3.
    pub wrap: u8,
    /// Whether borders and shadows scale with the frame.
    pub scaled: bool,
    /// For which video the colours are.
    pub matrix: ScriptMatrix,
}

/// A field of an event line (ASS specification, "Dialogue event lines"); `ReadOrder`, `Duration` and `Utf8` stand in
/// refusals of chunks alone.
#[derive(Clone, Copy, Debug, PartialEq, Eq, Hash)]
pub enum EventField {
    ReadOrder,
    Layer,
    Start,
    End,
    Duration,
    Style,
    Name,
    MarginL,
    MarginR,
    MarginV,
    Effect,
    Text,
    Utf8,
    /// A field of any other name.
    Other,
}

/// A script: its header, its styles in the order of the text, the fields of its event lines, and what stands behind
/// `Dialogue:` in each of them. It holds the built-in style too.
#[derive(Debug, Drop)]
pub struct Script {
    header: Header,
    styles: Items<Style>,
    format: Items<EventField>,
    lines: FlatLists<u8>,
    places: BTreeMap<String, usize>,
    built_in: Style,
}

impl Model for Script {
    ghost use Rattle.std.specs.Prelude.{◌≡◌, List, ℕ};
    ghost use Rattle.std.specs.BTreeMap.{get_by_text};
    ghost use Rattle.ass_script.specs.Ranges.{IsStyle};
    ghost use Rattle.ass_script.specs.Scripts.{ScriptValue, last_named};
    ghost use Rattle.ass_script.specs.Styles.{built_in_style};

    ghost Value = { ScriptValue };

    ghost view = { λ s. record { header = s.header; styles = s.styles; format = s.format; lines = s.lines } };

    ghost invariant = { λ s. ((name : List ℕ) → get_by_text s.places name ≡ last_named name s.styles) × (s.built_in ≡ built_in_style) × IsStyle s.built_in };
}

/// The place of the last style of each name.
fn places_of(alloc: Global, styles: &[Style]) -> Mem<BTreeMap<String, usize>>
    ensures { IfOk result (λ places. (name : List ℕ) → get_by_text places name ≡ last_named name styles.now) }
{
    let mut places = BTreeMap::new(alloc);
    for (place, style) in styles.iter().enumerate() {
        let name = String::from_str(alloc, style.name.as_str())?;
        places.insert(name, place)?;
    }
    Ok(places)
}

impl Script {
    /// A script of these parts.
    pub fn new(
        alloc: Global,
        header: Header,
        styles: Items<Style>,
        format: Items<EventField>,
        lines: FlatLists<u8>,
    ) -> Mem<Script>
        ensures { IfOk result (λ script. script ≡ record { header = header; styles = styles; format = format; lines = lines }) }
    {
        let places = places_of(alloc, styles.as_slice())?;
        let built_in = built_in_style(alloc)?;
        Ok(Script {
            header,
            styles,
            format,
            lines,
            places,
            built_in,
        })
    }

    /// What the lines of `[Script Info]` say.
    pub fn header(&self) -> Header
        ensures { result ≡ self.now.header }
    {
        self.header
    }

    /// The styles, in the order of the text.
    pub fn styles(&self) -> &[Style]
        ensures { result.now ≡ self.now.styles }
    {
        self.styles.as_slice()
    }

    /// The fields of the event lines.
    pub fn format(&self) -> &[EventField]
        ensures { result.now ≡ self.now.format }
    {
        self.format.as_slice()
    }

    /// How many Dialogue lines there are.
    pub fn line_count(&self) -> usize
        ensures { result ≡ length self.now.lines }
    {
        self.lines.len()
    }

    /// What stands behind `Dialogue:` in the line at `i`, in UTF-8.
    pub fn line(&self, i: usize) -> &[u8]
        requires { i < length self.now.lines }
        ensures { result.now ≡ slice_index_or self.now.lines i [] }
    {
        self.lines.get(i)
    }

    /// The style that a name means: the one that `find_style` finds, or else the built-in style.
    pub fn style_named(&self, name: &str) -> &Style
        ensures style { result.now ≡ style_for name.now self.now }
        ensures range { All IsStyle self.now.styles → IsStyle result.now }
    {
        match find_style(self, name) {
            Some(place) => &self.styles()[place],
            None => &self.built_in,
        }
    }
}

/// The place of the last style of a name.
fn place_of(script: &Script, name: &str) -> Option<usize>
    ensures { result ≡ last_named name.now script.now.styles }
{
    script.places.get(name).copied()
}

/// The place of the style that a name means: the last one of that name, without stars and blanks before it and blanks
/// behind it, or else the last one named `Default`. `None` stands for the built-in style.
pub fn find_style(script: &Script, name: &str) -> Option<usize>
    ensures place { result ≡ style_place name.now script.now.styles }
    ensures within { IfSome result (λ place. place < length script.now.styles) }
{
    place_of(script, bare_name(name)).or(place_of(script, "Default"))
}
