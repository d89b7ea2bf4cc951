//! The walk over the lines of a script.

ghost use Rattle.std.specs.Prelude.{◌≡◌, ◌+◌, ◌<◌, ◌^◌, IfOk};
ghost use Rattle.script_fonts.specs.Attachments.{UnlessMemory, font_of_characters};
ghost use Rattle.script_fonts.specs.Steps.{no_lines_read, closed, section_place, next_place, opened, with_data, data_step, fonts_step, line_step};
ghost use Rattle.script_fonts.specs.declared.reading.Place.TheVariants.{Font};

use crate::coding::{decoded, is_data};
use crate::font::ScriptFont;
use crate::lines::{begins_fonts, begins_section, file_name_in};
use crate::refusal::ScriptFontsRefusal;
use ass_num::{Items, Mem};
use std::alloc::Global;

/// A font whose data are being read: its name, the number of the line that names it, and its characters so far.
#[derive(Drop)]
pub struct OpenFont {
    pub name: Items<u8>,
    pub line: usize,
    pub characters: Items<u8>,
}

impl OpenFont {
    /// Before its first data.
    fn new(alloc: Global, name: &[u8], line: usize) -> Mem<OpenFont>
        ensures { IfOk result (λ begun. begun ≡ opened name.now line) }
    {
        Ok(OpenFont {
            name: Items::from_vec(Vec::from_slice(alloc, name)?),
            line,
            characters: Items::new(alloc),
        })
    }

    /// The same where a line of data follows.
    fn with_data(self, line: &[u8]) -> Mem<OpenFont>
        ensures { IfOk result (λ begun. begun ≡ with_data line.now self) }
    {
        let mut characters = self.characters.into_vec();
        characters.extend_from_slice(line)?;
        Ok(OpenFont {
            name: self.name,
            line: self.line,
            characters: Items::from_vec(characters),
        })
    }

    /// The font, where no more data come.
    fn made(self, alloc: Global) -> Result<ScriptFont, ScriptFontsRefusal>
        ensures { UnlessMemory (font_of_characters self.name self.line self.characters) result }
    {
        if self.characters.len() % 4 == 1 {
            return Err(ScriptFontsRefusal::BadLength(self.line));
        }
        let bytes = decoded(alloc, self.characters.as_slice())?;
        Ok(ScriptFont {
            name: self.name,
            bytes,
        })
    }
}

/// Where the next line stands.
#[derive(Drop)]
pub enum Place {
    /// In no section of fonts.
    Elsewhere,
    /// In a section of fonts, before the first.
    Fonts,
    /// In the data of a font.
    Font(OpenFont),
}

/// The fonts where no more data come.
fn closed(
    alloc: Global,
    place: Place,
    fonts: Items<ScriptFont>,
) -> Result<Items<ScriptFont>, ScriptFontsRefusal>
    ensures { UnlessMemory (closed place fonts) result }
{
    let Place::Font(begun) = place else {
        return Ok(fonts);
    };
    let mut fonts = fonts;
    fonts.push(begun.made(alloc)?)?;
    Ok(fonts)
}

/// What was read so far: the fonts that are whole, where the next line stands, and its number.
#[derive(Drop)]
pub struct Reading {
    fonts: Items<ScriptFont>,
    place: Place,
    pub number: usize,
}

impl Reading {
    /// Before the first line.
    pub fn new(alloc: Global) -> Reading
        ensures { result ≡ no_lines_read }
    {
        Reading {
            fonts: Items::new(alloc),
            place: Place::Elsewhere,
            number: 1,
        }
    }

    /// A heading.
    fn section(self, alloc: Global, here: bool) -> Result<Reading, ScriptFontsRefusal>
        requires { self.number + 1 < 2 ^ 64 }
        ensures { UnlessMemory (next_place (section_place here) self.number (closed self.place self.fonts)) result }
    {
        let fonts = closed(alloc, self.place, self.fonts)?;
        let place = if here { Place::Fonts } else { Place::Elsewhere };
        Ok(Reading {
            fonts,
            place,
            number: self.number + 1,
        })
    }

    /// A line that begins a font of this name.
    fn font(self, alloc: Global, name: &[u8]) -> Result<Reading, ScriptFontsRefusal>
        requires { self.number + 1 < 2 ^ 64 }
        ensures { UnlessMemory (next_place (Font (opened name.now self.number)) self.number (closed self.place self.fonts)) result }
    {
        let fonts = closed(alloc, self.place, self.fonts)?;
        let begun = OpenFont::new(alloc, name, self.number)?;
        Ok(Reading {
            fonts,
            place: Place::Font(begun),
            number: self.number + 1,
        })
    }

    /// A line that is no heading and begins no font.
    fn data(self, line: &[u8]) -> Result<Reading, ScriptFontsRefusal>
        requires { self.number + 1 < 2 ^ 64 }
        ensures { UnlessMemory (data_step line.now self.number self.fonts self.place) result }
    {
        let Reading {
            fonts,
            place,
            number,
        } = self;
        let place = match place {
            Place::Font(begun) => {
                if !is_data(line) {
                    return Err(ScriptFontsRefusal::BadCharacter(number));
                }
                Place::Font(begun.with_data(line)?)
            }
            place => place,
        };
        Ok(Reading {
            fonts,
            place,
            number: number + 1,
        })
    }

    /// Reads the next line, without the blanks at its ends.
    pub fn line(self, alloc: Global, line: &[u8]) -> Result<Reading, ScriptFontsRefusal>
        requires { self.number + 1 < 2 ^ 64 }
        ensures { UnlessMemory (line_step line.now self) result }
    {
        if begins_section(line) {
            return self.section(alloc, begins_fonts(line));
        }
        if let Place::Elsewhere = self.place {
            return Ok(Reading {
                number: self.number + 1,
                ..self
            });
        }
        match file_name_in(line) {
            Some(name) => self.font(alloc, name),
            None => self.data(line),
        }
    }

    /// The fonts, behind the last line.
    pub fn made(self, alloc: Global) -> Result<Items<ScriptFont>, ScriptFontsRefusal>
        ensures { UnlessMemory (closed self.place self.fonts) result }
    {
        closed(alloc, self.place, self.fonts)
    }
}
