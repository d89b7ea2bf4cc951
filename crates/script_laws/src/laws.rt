//! What holds of all scripts that are read. The function does nothing: its contract is the law.

ghost use Rattle.script_laws.specs.Laws.{TextsSpellScripts};

/// What a text spells is a script: header, styles and lines are within their ranges, and the fields of its event lines
/// end in the text.
pub fn texts_spell_scripts()
    ensures { TextsSpellScripts }
{}
