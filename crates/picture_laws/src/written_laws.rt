//! The laws. The functions call other laws and do nothing else: their contracts are the laws.

ghost use Rattle.picture_laws.specs.Laws.{PicturesAreReadBack, PicturesAreShifted, ReadScriptsAreReadLater, ReadScriptsAreSpelled, ScriptsGiveEvents};
ghost use Rattle.picture_laws.specs.Laws.{SpelledScriptsAreReadLater};

use script_laws::texts_spell_scripts;
use track_write::written_is_read_back;

/// Where a text can be written, the script that it is read as shows the same picture at each instant, in whatever fonts and
/// on whatever frame. Where events are shifted, they show at the shifted instant what they showed at the old one.
pub fn written_events_show_the_same()
    ensures read_back { PicturesAreReadBack }
    ensures shifted { PicturesAreShifted }
{
    written_is_read_back();
}

/// A script that is written again with its own events, so much later and so much earlier, is read as one that shows at each
/// instant that is so too what the first one showed at the old one. That holds of each script that is read from some bytes:
/// it can be said again, and the events of its lines are within their ranges, in the order of their ReadOrders.
pub fn rewritten_scripts_show_the_same()
    ensures spelled { ReadScriptsAreSpelled }
    ensures events { ScriptsGiveEvents }
    ensures later { SpelledScriptsAreReadLater }
    ensures read { ReadScriptsAreReadLater }
{
    texts_spell_scripts();
    written_is_read_back();
}
