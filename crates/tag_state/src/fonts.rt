//! The names of fonts, each once.

ghost use Rattle.std.specs.Prelude.{◌≡◌, ◌+◌, ◌^◌, ◌<◌, [], length, Some, slice_get, IfOk, OnOk};
ghost use Rattle.ass_script.specs.Scripts.{ScriptValue, style_for};
ghost use Rattle.tag_state.specs.Walks.{AreFonts, Grow};

use ass_num::{Items, Mem, Text};
use ass_script::{Script, Style, find_style};
use std::alloc::Global;
use std::collections::BTreeMap;

/// The names of fonts in the order in which they come, the number of each name, and that of the font of each style that
/// was named, by the style's place.
#[derive(Drop)]
pub(crate) struct Fonts {
    pub(crate) names: Items<Text>,
    numbers: BTreeMap<String, u32>,
    styles: BTreeMap<usize, u32>,
}

impl Fonts {
    /// No names.
    pub(crate) fn new(alloc: Global) -> Fonts
        ensures fonts { (script : ScriptValue) → AreFonts script result }
        ensures none { result.names ≡ [] }
    {
        Fonts {
            names: Items::new(alloc),
            numbers: BTreeMap::new(alloc),
            styles: BTreeMap::new(alloc),
        }
    }

    /// The number of a name, which is added where it isn't there.
    pub(crate) fn number_of(&mut self, alloc: Global, name: &str) -> Mem<u32>
        requires room { length self.old.names + 1 < 2 ^ 32 }
        ensures fonts { (script : ScriptValue) → AreFonts script self.old → OnOk result (AreFonts script self.new) }
        ensures grown { OnOk result (Grow self.old.names self.new.names) }
        ensures number { (script : ScriptValue) → AreFonts script self.old → IfOk result (λ number. slice_get self.new.names number ≡ Some name.now) }
    {
        if let Some(number) = self.numbers.get(name).copied() {
            return Ok(number);
        }
        let number = self.names.len() as u32;
        let key = String::from_str(alloc, name)?;
        self.names.push(Text::copy(alloc, name)?)?;
        self.numbers.insert(key, number)?;
        Ok(number)
    }

    /// The number of the font of the style at a place. Its name is looked up once.
    fn number_at(&mut self, alloc: Global, place: usize, style: &Style) -> Mem<u32>
        requires room { length self.old.names + 1 < 2 ^ 32 }
        ensures fonts { (script : ScriptValue) → slice_get script.styles place ≡ Some style.now → AreFonts script self.old
            → OnOk result (AreFonts script self.new) }
        ensures grown { OnOk result (Grow self.old.names self.new.names) }
        ensures number { (script : ScriptValue) → slice_get script.styles place ≡ Some style.now → AreFonts script self.old
            → IfOk result (λ number. slice_get self.new.names number ≡ Some style.now.font) }
    {
        if let Some(number) = self.styles.get(&place).copied() {
            return Ok(number);
        }
        let number = self.number_of(alloc, style.font.as_str())?;
        self.styles.insert(place, number)?;
        Ok(number)
    }

    /// The style that a name means, and the number of its font.
    pub(crate) fn style_named<'a>(
        &mut self,
        alloc: Global,
        script: &'a Script,
        name: &str,
    ) -> Mem<(&'a Style, u32)>
        requires room { length self.old.names + 1 < 2 ^ 32 }
        ensures fonts { AreFonts script.now self.old → OnOk result (AreFonts script.now self.new) }
        ensures grown { OnOk result (Grow self.old.names self.new.names) }
        ensures style { IfOk result (λ found. found.0.now ≡ style_for name.now script.now) }
        ensures number { AreFonts script.now self.old → IfOk result (λ found. slice_get self.new.names found.1 ≡ Some (style_for name.now script.now).font) }
    {
        match find_style(script, name) {
            Some(place) => {
                let style = &script.styles()[place];
                Ok((style, self.number_at(alloc, place, style)?))
            }
            None => {
                let style = script.style_named(name);
                Ok((style, self.number_of(alloc, style.font.as_str())?))
            }
        }
    }
}
