//! The state behind the tags that were read so far.

ghost use Rattle.std.specs.Prelude.{◌≡◌, ℕ, ◌+◌, ◌^◌, ◌<◌, [], ◌∷◌, ◌++◌, List, length, reverse, IfSome, IfOk, OnOk};
ghost use Rattle.ass_script.specs.Scripts.{ScriptValue};
ghost use Rattle.override_tags.specs.Ranges.{IsHeldTag};
ghost use Rattle.override_tags.specs.declared.tag.Tag.TheVariants.{FontName, Reset};
ghost use Rattle.tag_state.specs.Setters.{Effect, Plain, effects_of_tag};
ghost use Rattle.tag_state.specs.Steps.{HasSongRoom};
ghost use Rattle.tag_state.specs.Walks.{IsPen, Grow};

use crate::fonts::Fonts;
use crate::state::{restyled, styled};
use crate::steps::{set_by, transform};
use crate::syllables::next_syllable;
use ass_events::Event;
use ass_num::Mem;
use ass_script::{Script, Style};
use event_instants::transform_weight;
use override_tags::{State, Tag};
use std::alloc::Global;

/// A style, and the number of its font.
#[derive(Clone, Copy)]
pub(crate) struct Face<'a> {
    style: &'a Style,
    font: u32,
}

/// The state behind some tags, the event's own style, the style in force, and the fonts that were named.
#[derive(Drop)]
pub(crate) struct Pen<'a> {
    own: Face<'a>,
    face: Face<'a>,
    pub(crate) state: State,
    pub(crate) fonts: Fonts,
}

impl<'a> Pen<'a> {
    /// The pen at the front of a text of a style.
    pub(crate) fn new(alloc: Global, script: &'a Script, style: &str) -> Mem<Pen<'a>>
        ensures { IfOk result (λ pen. IsPen script.now style.now [] 0 pen) }
    {
        let mut fonts = Fonts::new(alloc);
        let (style, font) = fonts.style_named(alloc, script, style)?;
        let own = Face { style, font };
        Ok(Pen {
            own,
            face: own,
            state: styled(style, font),
            fonts,
        })
    }

    /// Sets the font of a name.
    fn set_font(&mut self, alloc: Global, name: &str) -> Mem<()>
        requires room { length self.old.fonts.names + 1 < 2 ^ 32 }
        ensures grown { OnOk result (Grow self.old.fonts.names self.new.fonts.names) }
        ensures pen { (script : ScriptValue) (own : List ℕ) (before : List Effect) (tags : ℕ) → IsPen script own before tags self.old
            → OnOk result (IsPen script own (Plain (FontName name.now) ∷ before) (tags + 1) self.new) }
    {
        if name.is_empty() {
            self.state.font = self.face.font;
            return Ok(());
        }
        self.state.font = self.fonts.number_of(alloc, name)?;
        Ok(())
    }

    /// Resets to the style of a name, or to the event's own one.
    fn reset(&mut self, alloc: Global, script: &'a Script, name: &str) -> Mem<()>
        requires room { length self.old.fonts.names + 1 < 2 ^ 32 }
        ensures grown { OnOk result (Grow self.old.fonts.names self.new.fonts.names) }
        ensures pen { (own : List ℕ) (before : List Effect) (tags : ℕ) → IsPen script.now own before tags self.old
            → OnOk result (IsPen script.now own (Plain (Reset name.now) ∷ before) (tags + 1) self.new) }
    {
        if name.is_empty() {
            self.face = self.own;
            self.state = restyled(&self.state, self.own.style, self.own.font);
            return Ok(());
        }
        let (style, font) = self.fonts.style_named(alloc, script, name)?;
        self.face = Face { style, font };
        self.state = restyled(&self.state, style, font);
        Ok(())
    }

    /// What a tag of an event does to the characters behind it.
    pub(crate) fn apply(
        &mut self,
        alloc: Global,
        script: &'a Script,
        event: &Event,
        elapsed: i64,
        tag: &Tag,
    ) -> Mem<()>
        requires held { IsHeldTag tag.now }
        requires room { length self.old.fonts.names + 1 < 2 ^ 32 }
        requires song { IfSome self.old.state.sung HasSongRoom }
        ensures grown { OnOk result (Grow self.old.fonts.names self.new.fonts.names) }
        ensures pen { (own : List ℕ) (before : List Effect) (tags : ℕ) → IsPen script.now own before tags self.old
            → OnOk result (IsPen script.now own (reverse (effects_of_tag event.now.duration elapsed tag.now) ++ before) (tags + 1) self.new) }
    {
        let style = self.face.style;
        match tag {
            Tag::FontName(name) => return self.set_font(alloc, name.as_str()),
            Tag::Reset(name) => return self.reset(alloc, script, name.as_str()),
            Tag::Karaoke(kind, len) => {
                self.state.sung = Some(next_syllable(self.state.sung, *kind, *len));
            }
            Tag::Transform(times, quarters, tags) => {
                let weight = transform_weight(*times, event.duration, *quarters, elapsed);
                transform(&mut self.state, style, tags.as_slice(), weight);
            }
            _ => set_by(&mut self.state, style, tag),
        }
        Ok(())
    }
}
