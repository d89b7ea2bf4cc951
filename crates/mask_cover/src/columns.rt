//! The columns that a region spans.

ghost use Rattle.std.specs.Prelude.{◌≡◌, ◌<◌, true, length};
ghost use Rattle.std.specs.Int.{int_min, int_max};
ghost use Rattle.ass_num.specs.Regions.{all_ascend, ascend, has_run, first_has_run, in_runs};
ghost use Rattle.mask_cover.specs.Columns.{IsSpan, IsSpanOfRows};

use ass_num::{FlatLists, Run};

/// The least run that has all samples of a row.
fn span_of_row(runs: &[Run]) -> Run
    requires ascends { ascend runs.now ≡ true }
    requires some { has_run runs.now ≡ true }
    ensures { IsSpan runs.now result }
{
    Run {
        from: runs[0].from,
        to: runs[runs.len() - 1].to,
    }
}

/// The least run that has both runs.
fn joined(a: Run, b: Run) -> Run
    ensures { result ≡ record { from = int_min a.from b.from; to = int_max a.to b.to } }
{
    Run {
        from: a.from.min(b.from),
        to: a.to.max(b.to),
    }
}

/// The least run that has the samples of all rows.
pub fn span_of(rows: &FlatLists<Run>) -> Run
    requires ascends { all_ascend rows.now ≡ true }
    requires some { 0 < length rows.now }
    requires first { first_has_run rows.now ≡ true }
    ensures { IsSpanOfRows rows.now (length rows.now) result }
{
    let mut span = span_of_row(rows.get(0));
    for k in 1..rows.len() {
        let row = rows.get(k);
        if !row.is_empty() {
            span = joined(span, span_of_row(row));
        }
    }
    span
}
