//! What is laid out and planned: scripts with their events, and fonts.

ghost use Rattle.std.specs.Prelude.{◌≤◌, length, IfOk};
ghost use Rattle.ass_num.specs.Limits.{max_text_bytes};
ghost use Rattle.ass_script.specs.Ranges.{IsScript};
ghost use Rattle.ass_events.specs.Ranges.{IsEvent};
ghost use Rattle.bdf_font.specs.Ranges.{IsFont};
ghost use Rattle.override_tags.specs.Views.{IsView};
ghost use Rattle.ass_events.specs.LineLaws.{HasShortLines};
ghost use Rattle.text_layout.specs.Fonts.{IsLayoutFontSet};

use crate::unreadable;
use ass_events::{Event, event_of_line, line_laws};
use ass_num::Items;
use ass_script::{Script, read_script};
use bdf_font::{Font, FontSet, read_font, read_fonts};
use override_tags::EventView;
use std::alloc::Global;
use std::io;
use tag_state::states_at;

/// The most bytes that a text may have.
const MAX_BYTES: usize = 134_217_728;

/// The most bytes that a font may have.
const MAX_FONT_BYTES: usize = 67_108_864;

/// The script of a text.
pub fn script_of(alloc: Global, text: &str) -> io::Result<Script>
    ensures script { IfOk result IsScript }
    ensures short { IfOk result HasShortLines }
{
    if text.len() > MAX_BYTES {
        return Err(unreadable());
    }
    line_laws::lines_fit_their_text();
    match read_script(alloc, text.as_bytes()) {
        Ok(script) => Ok(script),
        Err(_) => Err(unreadable()),
    }
}

/// The event of a script's first line.
pub fn event_of(alloc: Global, script: &Script) -> io::Result<Event>
    requires { IsScript script.now }
    ensures event { IfOk result IsEvent }
    ensures few { IfOk result (λ event. length event.text ≤ max_text_bytes) }
{
    if script.line_count() == 0 {
        return Err(unreadable());
    }
    match event_of_line(alloc, script, 0) {
        Ok(event) if event.text.as_str().len() <= MAX_BYTES => Ok(event),
        _ => Err(unreadable()),
    }
}

/// What an event shows at its start.
pub fn view_of(alloc: Global, script: &Script, event: &Event) -> io::Result<EventView>
    requires script { IsScript script.now }
    requires event { IsEvent event.now }
    requires few { length event.now.text ≤ max_text_bytes }
    ensures { IfOk result IsView }
{
    match states_at(alloc, script, event, 0) {
        Ok(view) => Ok(view),
        Err(_) => Err(unreadable()),
    }
}

fn font_of(alloc: Global, text: &str) -> io::Result<Font>
    ensures { IfOk result IsFont }
{
    if text.len() > MAX_FONT_BYTES {
        return Err(unreadable());
    }
    match read_font(alloc, text.as_bytes()) {
        Ok(font) => Ok(font),
        Err(_) => Err(unreadable()),
    }
}

/// Two fonts.
pub fn fonts_of(alloc: Global, first: &str, second: &str) -> io::Result<FontSet>
    ensures { IfOk result (λ set. IsLayoutFontSet set.fonts) }
{
    let mut fonts = Items::new(alloc);
    let first = font_of(alloc, first)?;
    let second = font_of(alloc, second)?;
    let Ok(()) = fonts.push(first) else {
        return Err(unreadable());
    };
    let Ok(()) = fonts.push(second) else {
        return Err(unreadable());
    };
    Ok(FontSet { fonts })
}

/// The fonts of a file, which is written in hexadecimal digits.
pub fn faces_of(alloc: Global, digits: &str) -> io::Result<FontSet>
    ensures { IfOk result (λ set. IsLayoutFontSet set.fonts) }
{
    let Ok(bytes) = hex::decode(alloc, digits.trim()) else {
        return Err(unreadable());
    };
    if bytes.len() > MAX_FONT_BYTES {
        return Err(unreadable());
    }
    match read_fonts(alloc, Items::from_vec(bytes)) {
        Ok(fonts) => Ok(FontSet { fonts }),
        Err(_) => Err(unreadable()),
    }
}
