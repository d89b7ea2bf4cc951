//! The lines of a script: sections, keys and values.

ghost use Rattle.std.specs.Prelude.{◌≡◌};
ghost use Rattle.ass_script.specs.Lines.{is_bracketed, is_heading, is_comment, section_named, info_key_named, style_key_named, event_key_named, key_named};
ghost use Rattle.ass_script.specs.Lines.{keyed_line, line_in};

use crate::words::same_name;
use ass_num::text_blanks::trimmed;

/// The version of a section of styles.
#[derive(Clone, Copy)]
pub enum Version {
    V4,
    V4Plus,
}

/// What the last heading began.
#[derive(Clone, Copy)]
pub enum Section {
    Info,
    Styles(Version),
    Events,
    /// Any other section, and the lines before the first heading.
    Other,
}

/// What a line says in its section.
#[derive(Clone, Copy)]
pub enum Key {
    Heading(Section),
    ResX,
    ResY,
    Wrap,
    Scaled,
    Matrix,
    StyleFormat(Version),
    Style(Version),
    EventFormat,
    Dialogue,
    /// A line that is passed over.
    Other,
}

fn is_bracketed(text: &str) -> bool
    ensures { result ≡ is_bracketed text.now }
{
    let bytes = text.as_bytes();
    !bytes.is_empty() && bytes[0] == b'[' && bytes[bytes.len() - 1] == b']'
}

/// The section that a heading begins.
#[tactic(auto, unfolding(crate::specs::Lines::section_named))]
fn section_named(heading: &str) -> Section
    ensures { result ≡ section_named heading.now }
{
    if same_name(heading, "[Script Info]") {
        return Section::Info;
    }
    if same_name(heading, "[V4+ Styles]") {
        return Section::Styles(Version::V4Plus);
    }
    if same_name(heading, "[V4 Styles]") {
        return Section::Styles(Version::V4);
    }
    if same_name(heading, "[Events]") {
        return Section::Events;
    }
    Section::Other
}

#[tactic(auto, unfolding(crate::specs::Lines::info_key_named))]
fn info_key_named(word: &str) -> Key
    ensures { result ≡ info_key_named word.now }
{
    if same_name(word, "PlayResX") {
        return Key::ResX;
    }
    if same_name(word, "PlayResY") {
        return Key::ResY;
    }
    if same_name(word, "WrapStyle") {
        return Key::Wrap;
    }
    if same_name(word, "ScaledBorderAndShadow") {
        return Key::Scaled;
    }
    if same_name(word, "YCbCr Matrix") {
        return Key::Matrix;
    }
    Key::Other
}

#[tactic(auto, unfolding(crate::specs::Lines::style_key_named))]
fn style_key_named(version: Version, word: &str) -> Key
    ensures { result ≡ style_key_named version word.now }
{
    if same_name(word, "Style") {
        return Key::Style(version);
    }
    if same_name(word, "Format") {
        return Key::StyleFormat(version);
    }
    Key::Other
}

#[tactic(auto, unfolding(crate::specs::Lines::event_key_named))]
fn event_key_named(word: &str) -> Key
    ensures { result ≡ event_key_named word.now }
{
    if same_name(word, "Dialogue") {
        return Key::Dialogue;
    }
    if same_name(word, "Format") {
        return Key::EventFormat;
    }
    Key::Other
}

fn key_named(section: Section, word: &str) -> Key
    ensures { result ≡ key_named section word.now }
{
    match section {
        Section::Info => info_key_named(word),
        Section::Styles(version) => style_key_named(version, word),
        Section::Events => event_key_named(word),
        Section::Other => Key::Other,
    }
}

/// A line that begins with `;`.
fn is_comment(text: &str) -> bool
    ensures { result ≡ is_comment text.now }
{
    let bytes = text.as_bytes();
    !bytes.is_empty() && bytes[0] == b';'
}

/// A line that is no heading.
#[tactic(auto, using(crate::proofs::Picks::none_passes), unfolding(crate::specs::Lines::keyed_line))]
fn keyed_line(section: Section, text: &str) -> (Key, &str)
    ensures key { result.0 ≡ (keyed_line section text.now).key }
    ensures value { result.1.now ≡ (keyed_line section text.now).value }
{
    if is_comment(text) {
        return (Key::Other, "");
    }
    match text.split_once(':') {
        Some((word, value)) => (key_named(section, trimmed(word)), value),
        None => (Key::Other, ""),
    }
}

/// What a line of a section says: its key, and what stands behind its first colon.
#[tactic(auto, unfolding(crate::specs::Lines::is_heading))]
pub fn line_in(section: Section, text: &str) -> (Key, &str)
    ensures key { result.0 ≡ (line_in section text.now).key }
    ensures value { result.1.now ≡ (line_in section text.now).value }
{
    let heading = trimmed(text);
    if is_bracketed(heading) {
        return (Key::Heading(section_named(heading)), "");
    }
    keyed_line(section, text)
}
