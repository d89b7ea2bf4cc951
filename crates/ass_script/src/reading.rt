//! The walk over the lines of a script.

ghost use Rattle.std.specs.Prelude.{◌≡◌, ◌≤◌, length, OnOk, IfOk};
ghost use Rattle.ass_script.specs.Fields.{usual_style_fields};
ghost use Rattle.ass_script.specs.Ranges.{IsScriptReading, IsScript};
ghost use Rattle.ass_script.specs.Scripts.{IsScriptAnswer};
ghost use Rattle.ass_script.specs.Walk.{no_script_lines, no_headings, with_heading, fields_of, style_step, format_step, event_format_step, dialogue_step};
ghost use Rattle.ass_script.specs.Walk.{key_step, line_step, version_said, fields_said, made_script};

use crate::event_format::{ends_in_text, event_fields, format_or_usual};
use crate::header_lines::HeaderLines;
use crate::lines::{Key, Section, Version, line_in};
use crate::refusal::ScriptRefusal;
use crate::script::{EventField, Script};
use crate::style::Style;
use crate::style_field::StyleField;
use crate::style_format::{style_fields, usual_style_fields};
use crate::style_line::style_line;
use ass_num::{FlatLists, Items, Mem};
use std::alloc::Global;

/// The most Dialogue lines that a script has.
pub const MAX_LINES: usize = 1_000_000;

/// The most styles that a script has.
pub const MAX_STYLES: usize = 10_000;

/// Which headings came so far.
#[derive(Clone, Copy)]
pub struct Headings {
    pub events: bool,
    pub styles: bool,
    pub old_styles: bool,
}

impl Headings {
    fn new() -> Headings
        ensures { result ≡ no_headings }
    {
        Headings {
            events: false,
            styles: false,
            old_styles: false,
        }
    }

    fn note(&mut self, section: Section)
        ensures { self.new ≡ with_heading section self.old }
    {
        match section {
            Section::Events => self.events = true,
            Section::Styles(Version::V4Plus) => self.styles = true,
            Section::Styles(Version::V4) => self.old_styles = true,
            Section::Info | Section::Other => {}
        }
    }

    /// A script is old where it has old styles alone.
    fn version(&self) -> Version
        ensures { result ≡ version_said self.now }
    {
        if self.old_styles && !self.styles {
            return Version::V4;
        }
        Version::V4Plus
    }
}

/// What was read so far. Behind a line too many headings alone are noted.
#[derive(Drop)]
pub struct Reading {
    pub section: Section,
    pub headings: Headings,
    pub header: HeaderLines,
    pub fields: Option<Items<StyleField>>,
    pub old_fields: Option<Items<StyleField>>,
    pub styles: Items<Style>,
    pub format: Option<Items<EventField>>,
    pub lines: FlatLists<u8>,
    pub refusal: Option<ScriptRefusal>,
}

impl Reading {
    /// Before the first line.
    pub fn new(alloc: Global) -> Reading
        ensures new { result ≡ no_script_lines }
        ensures sound { IsScriptReading result }
    {
        Reading {
            section: Section::Other,
            headings: Headings::new(),
            header: HeaderLines::new(),
            fields: None,
            old_fields: None,
            styles: Items::new(alloc),
            format: None,
            lines: FlatLists::new(alloc),
            refusal: None,
        }
    }

    /// The fields of Style lines here.
    fn style_fields(&self, version: Version) -> &[StyleField]
        ensures { result.now ≡ fields_of version self.now }
    {
        let fields = match version {
            Version::V4 => &self.old_fields,
            Version::V4Plus => &self.fields,
        };
        match fields {
            Some(fields) => fields.as_slice(),
            None => usual_style_fields(version),
        }
    }

    /// A Format line of styles.
    fn style_format(&mut self, alloc: Global, version: Version, value: &str) -> Mem<()>
        requires { IsScriptReading self.old }
        ensures read { OnOk result (self.new ≡ format_step version value.now self.old) }
        ensures sound { OnOk result (IsScriptReading self.new) }
    {
        let fields = style_fields(alloc, version, value)?;
        match version {
            Version::V4 => self.old_fields = Some(fields),
            Version::V4Plus => self.fields = Some(fields),
        }
        Ok(())
    }

    /// A Style line.
    fn style(&mut self, alloc: Global, version: Version, value: &str) -> Mem<()>
        requires { IsScriptReading self.old }
        ensures read { OnOk result (self.new ≡ style_step version value.now self.old) }
        ensures sound { OnOk result (IsScriptReading self.new) }
    {
        if MAX_STYLES <= self.styles.len() {
            self.refusal = Some(ScriptRefusal::TooManyStyles(MAX_STYLES));
            return Ok(());
        }
        let style = style_line(alloc, version, self.style_fields(version), value)?;
        self.styles.push(style)?;
        Ok(())
    }

    /// A Format line of events.
    fn event_format(&mut self, alloc: Global, value: &str) -> Mem<()>
        requires { IsScriptReading self.old }
        ensures read { OnOk result (self.new ≡ event_format_step value.now self.old) }
        ensures sound { OnOk result (IsScriptReading self.new) }
    {
        let fields = event_fields(alloc, value)?;
        if ends_in_text(fields.as_slice()) {
            self.format = Some(fields);
        }
        Ok(())
    }

    /// A Dialogue line.
    fn dialogue(&mut self, value: &str) -> Mem<()>
        requires { IsScriptReading self.old }
        ensures read { OnOk result (self.new ≡ dialogue_step value.now self.old) }
        ensures sound { OnOk result (IsScriptReading self.new) }
    {
        if MAX_LINES <= self.lines.len() {
            self.refusal = Some(ScriptRefusal::TooManyLines(MAX_LINES));
            return Ok(());
        }
        self.lines.push(value.as_bytes())?;
        Ok(())
    }

    /// A line that is no heading, where no line before it was one too many.
    fn keyed_line(&mut self, alloc: Global, key: Key, value: &str) -> Mem<()>
        requires { IsScriptReading self.old }
        ensures read { OnOk result (self.new ≡ key_step key value.now self.old) }
        ensures sound { OnOk result (IsScriptReading self.new) }
    {
        match key {
            Key::StyleFormat(version) => self.style_format(alloc, version, value),
            Key::Style(version) => self.style(alloc, version, value),
            Key::EventFormat => self.event_format(alloc, value),
            Key::Dialogue => self.dialogue(value),
            Key::ResX | Key::ResY | Key::Wrap | Key::Scaled | Key::Matrix => {
                self.header.line(key, value);
                Ok(())
            }
            Key::Heading(_) | Key::Other => Ok(()),
        }
    }

    /// Reads the next line.
    pub fn line(&mut self, alloc: Global, text: &str) -> Mem<()>
        requires { IsScriptReading self.old }
        ensures read { OnOk result (self.new ≡ line_step text.now self.old) }
        ensures sound { OnOk result (IsScriptReading self.new) }
    {
        let (key, value) = line_in(self.section, text);
        if let Key::Heading(section) = key {
            self.section = section;
            self.headings.note(section);
            return Ok(());
        }
        if self.refusal.is_some() {
            return Ok(());
        }
        self.keyed_line(alloc, key, value)
    }

    /// The script that the lines make, or why they make none.
    pub fn made(self, alloc: Global) -> Result<Script, ScriptRefusal>
        requires { IsScriptReading self }
        ensures answer { IsScriptAnswer result (made_script self) }
        ensures script { IfOk result IsScript }
    {
        if !self.headings.events {
            return Err(ScriptRefusal::NoEvents);
        }
        if let Some(refusal) = self.refusal {
            return Err(refusal);
        }
        let version = self.headings.version();
        let header = self.header.made();
        let format = format_or_usual(alloc, self.format, version)?;
        let script = Script::new(alloc, header, self.styles, format, self.lines)?;
        Ok(script)
    }
}
