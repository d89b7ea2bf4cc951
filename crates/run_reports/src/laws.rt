//! A law of what is told line by line.

ghost use Rattle.run_reports.specs.Laws.{LinesAreReport};

/// The lines of words on what changes, one behind another, are the report on it by default.
pub fn lines_are_report()
    ensures { LinesAreReport }
{}
