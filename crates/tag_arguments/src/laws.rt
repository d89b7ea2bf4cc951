//! The law of the table of names.

ghost use Rattle.tag_arguments.specs.Laws.{LongestCounts, NoneIsNone};

/// Of the names that a text begins with the longest one counts, and none is found only where it begins with none.
pub fn longest_counts()
    ensures longest { LongestCounts }
    ensures none { NoneIsNone }
{}
