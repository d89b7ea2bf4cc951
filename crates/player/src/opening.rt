//! Opening a player, its fonts and its budget.

ghost use Rattle.std.specs.Prelude.{◌≡◌, ◌<◌, ◌≤◌, ◌+◌, ◌++◌, length, slice_index_or, All, Ok, Err, IfOk, IfErr, OnOk, OnErr};
ghost use Rattle.std.specs.Arc.{arc_value};
ghost use Rattle.ass_num.specs.Limits.{max_file_bytes};
ghost use Rattle.ass_script.specs.Ranges.{IsScript};
ghost use Rattle.ass_script.specs.Scripts.{IsScriptAnswer, ScriptValue, script_of};
ghost use Rattle.bdf_font.specs.Limits.{max_fonts};
ghost use Rattle.bdf_font.specs.Ranges.{IsFont};
ghost use Rattle.bdf_font.specs.Sets.{no_font};
ghost use Rattle.evict_core.specs.Machine.{max_budget};
ghost use Rattle.mask_keys.specs.Outlines.{IsFontSet};
ghost use Rattle.player.specs.Added.{AreScriptFontsAdded};
ghost use Rattle.player.specs.Players.{new_player};
ghost use Rattle.ass_events.specs.LineLaws.{HasShortLines};

use crate::fonts::with_fonts;
use crate::player::Player;
use ass_events::line_laws;
use ass_num::{Items, Mem};
use ass_script::{Script, ScriptRefusal, read_script};
use bdf_font::{Font, FontSet};
use embedded_fonts::{EmbeddedRefusal, read_embedded_fonts};
use local_caches::LocalCaches;
use script_fonts::ScriptFontsRefusal;
use std::alloc::Global;
use std::sync::Arc;
use track_history::LocalTrack;

/// The most fonts of a player.
const MAX_FONTS: usize = 64;

impl Player {
    /// A player of the script that bytes spell, at most 67,108,864 of them, without fonts and without events: the script's
    /// own lines aren't fed yet (`ass_read_memory` in libass `ass.h`). Each of its three caches gets the whole budget, at
    /// most 2^40.
    pub fn open(alloc: Global, bytes: &[u8], budget: u64) -> Result<Player, ScriptRefusal>
        requires bytes { length bytes.now ≤ max_file_bytes }
        requires budget { budget ≤ max_budget }
        ensures opened { IfOk result (λ player. (script : ScriptValue) × (script_of bytes.now ≡ Ok script) × (player ≡ new_player script budget)) }
        ensures refused { IfErr result (λ refusal. IsScriptAnswer (Err refusal) (script_of bytes.now)) }
    {
        line_laws::lines_fit_their_text();
        let script = match read_script(alloc, bytes) {
            Ok(script) => script,
            Err(refusal) => return Err(refusal),
        };
        match Player::of_script(alloc, script, budget) {
            Ok(player) => Ok(player),
            Err(_) => Err(ScriptRefusal::OutOfMemory),
        }
    }

    /// The same of a script that was read.
    pub fn of_script(alloc: Global, script: Script, budget: u64) -> Mem<Player>
        requires script { IsScript script }
        requires short { HasShortLines script }
        requires budget { budget ≤ max_budget }
        ensures { IfOk result (λ player. player ≡ new_player script budget) }
    {
        let script = Arc::new(alloc, script)?;
        let none = FontSet {
            fonts: Items::new(alloc),
        };
        let fonts = Arc::new(alloc, none)?;
        Player::of_shares(alloc, script, fonts, budget)
    }

    /// The same of a script and fonts that others share.
    fn of_shares(
        alloc: Global,
        script: Arc<Script>,
        fonts: Arc<FontSet>,
        budget: u64,
    ) -> Mem<Player>
        requires script { IsScript (arc_value script) }
        requires short { HasShortLines (arc_value script) }
        requires fonts { IsFontSet (arc_value fonts).fonts }
        requires budget { budget ≤ max_budget }
        ensures { IfOk result (λ player. player ≡ record (new_player (arc_value script) budget) { fonts = (arc_value fonts).fonts }) }
    {
        let shared = Arc::try_clone(&fonts)?;
        let local = LocalCaches::open(alloc, shared, budget)?;
        Ok(Player {
            script,
            fonts,
            track: LocalTrack::new(alloc),
            local,
            budget,
            listed: None,
            images: Vec::new(alloc),
            bytes: 0,
        })
    }

    /// A player of the same script, fonts and budget that nothing was fed to and that has listed nothing. They share the
    /// script and the fonts; its caches are its own.
    pub fn unfed(&self, alloc: Global) -> Mem<Player>
        ensures { IfOk result (λ player. player ≡ record (new_player self.now.script self.now.budget) { fonts = self.now.fonts }) }
    {
        let script = Arc::try_clone(&self.script)?;
        let fonts = Arc::try_clone(&self.fonts)?;
        Player::of_shares(alloc, script, fonts, self.budget)
    }

    /// How many fonts it has.
    pub fn font_count(&self) -> usize
        ensures { result ≡ length self.now.fonts }
    {
        self.fonts.fonts.len()
    }

    /// A font, by its number.
    pub fn font(&self, number: usize) -> &Font
        requires { number < length self.now.fonts }
        ensures { result.now ≡ slice_index_or self.now.fonts number no_font }
    {
        &self.fonts.fonts.as_slice()[number]
    }

    /// Puts fonts behind the others, such as all that a file has; together they are at most 64 (`ass_add_font` in libass
    /// `ass.h`). What the caches had is dropped. An `Err` changes nothing.
    pub fn add_fonts(&mut self, alloc: Global, more: Items<Font>) -> Mem<()>
        requires each { All IsFont more }
        requires few { length self.old.fonts + length more ≤ max_fonts }
        ensures ok { OnOk result (self.new ≡ record self.old { fonts = self.old.fonts ++ more }) }
        ensures err { OnErr result (self.new ≡ self.old) }
    {
        let all = with_fonts(alloc, &self.fonts, more)?;
        let fonts = Arc::new(alloc, all)?;
        let shared = Arc::try_clone(&fonts)?;
        let local = LocalCaches::open(alloc, shared, self.budget)?;
        self.fonts = fonts;
        self.local = local;
        self.listed = None;
        Ok(())
    }

    /// Puts the fonts that a script holds behind the others, and tells how many they are (`ass_set_extract_fonts` in
    /// libass `ass.h`). `TooMany` is refused where together they were more than 64. An `Err` changes nothing.
    #[tactic(auto, using(crate::proofs::AddedLemmas::held_refused, crate::proofs::AddedLemmas::held_too_many))]
    pub fn add_script_fonts(
        &mut self,
        alloc: Global,
        script: &[u8],
    ) -> Result<usize, EmbeddedRefusal>
        requires { length script.now ≤ max_file_bytes }
        ensures { AreScriptFontsAdded script.now self.old self.new result }
    {
        let fonts = match read_embedded_fonts(alloc, script) {
            Ok(fonts) => fonts,
            Err(refusal) => return Err(refusal),
        };
        let count = fonts.len();
        if self.font_count() > MAX_FONTS - count {
            return Err(EmbeddedRefusal::TooMany);
        }
        match self.add_fonts(alloc, fonts) {
            Ok(()) => Ok(count),
            Err(_) => Err(EmbeddedRefusal::Data(ScriptFontsRefusal::OutOfMemory)),
        }
    }

    /// A new budget for each cache, at most 2^40 (`ass_set_cache_limits` in libass `ass.h`). As few entries are evicted as
    /// it wants.
    pub fn set_budget(&mut self, budget: u64)
        requires { budget ≤ max_budget }
        ensures { self.new ≡ record self.old { budget = budget } }
    {
        self.local.set_budget(budget);
        self.budget = budget;
    }
}
