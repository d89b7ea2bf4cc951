//! Which font a state has, and what is drawn where that one isn't slanted or bold itself.

ghost use Rattle.std.specs.Prelude.{◌≡◌, ◌<◌, length, All, IfOk};
ghost use Rattle.override_tags.specs.Views.{IsState};
ghost use Rattle.text_layout.specs.Fonts.{IsLayoutFontSet, font_of_state, needs_slant, needs_bold_step, state_fonts};

use ass_num::Mem;
use bdf_font::{Font, FontSet, find_font};
use override_tags::{EventView, State};
use std::alloc::Global;

/// The weight from which a font's letters are bold themselves.
const LEAST_BOLD_WEIGHT: u16 = 550;

/// The place of the font of a state: that of its name, bold and italic (Aegisub tag reference, "\fn", "\b", "\i").
pub(crate) fn font_of_state(fonts: &FontSet, view: &EventView, state: &State) -> u32
    requires fonts { IsLayoutFontSet fonts.now.fonts }
    requires name { state.now.font < length view.now.names }
    ensures value { result ≡ font_of_state fonts.now.fonts view.now.names state.now }
    ensures within { result < length fonts.now.fonts }
{
    let name = view.names.as_slice()[state.font as usize].as_str();
    find_font(fonts, name, state.bold, state.italic)
}

/// The places of the fonts of a view's states.
pub fn state_fonts(alloc: Global, fonts: &FontSet, view: &EventView) -> Mem<Vec<u32>>
    requires fonts { IsLayoutFontSet fonts.now.fonts }
    requires states { All (IsState (length view.now.names)) view.now.states }
    ensures { IfOk result (λ numbers. numbers.items ≡ state_fonts fonts.now.fonts view.now) }
{
    let mut numbers = Vec::with_capacity(alloc, view.states.len())?;
    for state in view.states.as_slice() {
        numbers.push(font_of_state(fonts, view, state))?;
    }
    Ok(numbers)
}

/// Whether letters of a state are to be slanted: it is italic, and their font isn't slanted.
pub(crate) fn needs_slant(font: &Font, state: &State) -> bool
    ensures { result ≡ needs_slant font.now state.now }
{
    state.italic && !font.is_slanted()
}

/// Whether letters of a state are to be drawn a step wider: it is bold, and their font's weight is below 550.
pub fn needs_bold_step(font: &Font, state: &State) -> bool
    ensures { result ≡ needs_bold_step font.now state.now }
{
    state.bold && font.weight() < LEAST_BOLD_WEIGHT
}
