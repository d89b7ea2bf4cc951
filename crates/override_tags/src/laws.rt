//! Laws of readings.

ghost use Rattle.override_tags.specs.Laws.{HasReading, OneReading, PartsCover, TagsInside};

/// The characters, breaks, hard spaces and blocks of a text follow one another and cover it.
pub fn parts_cover()
    ensures { PartsCover }
{}

/// A text has a reading and no two, so what `read_text` gives is the only reading that its contract allows.
pub fn one_reading()
    ensures some { HasReading }
    ensures one { OneReading }
{}

/// The tags behind a block lie between its braces, one behind the other.
pub fn tags_inside()
    ensures { TagsInside }
{}
