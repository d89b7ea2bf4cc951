//! What holds of all chunks and lines: the theorems above the definitions of `read_chunk` and `chunk_of_line`.

ghost use Rattle.ass_events.specs.Laws.{ChunksGiveEvents, WrittenIsReadBack, LinesGiveEvents, ChunksOfLinesAreRead, TextsFitChunks, TextsFitLines};
ghost use Rattle.ass_events.specs.Laws.{TimesAreRead};

/// What `write_chunk` writes of an event that a chunk gave is read back as this event.
pub fn written_is_read_back()
    ensures ranges { ChunksGiveEvents }
    ensures back { WrittenIsReadBack }
{}

/// The chunk of a line gives the event of this line, where the script is one that a text spells.
pub fn lines_give_events()
    ensures ranges { LinesGiveEvents }
    ensures chunk { ChunksOfLinesAreRead }
{}

/// The texts of an event have together no more bytes than the chunk or the line that gave it.
pub fn texts_fit()
    ensures chunks { TextsFitChunks }
    ensures lines { TextsFitLines }
{}

/// Times are read as `ass_num` reads them.
pub fn times_are_read()
    ensures { TimesAreRead }
{}
