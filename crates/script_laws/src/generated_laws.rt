//! What holds of all generated scripts. The function does nothing: its contract is the law.

ghost use Rattle.script_laws.specs.GeneratedLaws.{GeneratedLinesGiveEvents, GeneratedScriptsAreRead, GeneratedScriptsFit};

/// A generated script is read, whatever its seed, and has as many Dialogue lines as events were asked for. Each gives its
/// event; and a file can hold the script.
pub fn generated_scripts_are_read()
    ensures read { GeneratedScriptsAreRead }
    ensures events { GeneratedLinesGiveEvents }
    ensures fits { GeneratedScriptsFit }
{}
