//! Counts that stop at their last value.

ghost use Rattle.ass_io.specs.Counts.{IsOneMore};

/// One more, unless the count stands at its last value.
pub fn count_one(count: &mut u64)
    ensures { IsOneMore count.old count.new }
{
    *count = count.saturating_add(1);
}
