//! Frames and instants that may be asked for.

ghost use Rattle.std.specs.Bool.{Decides};
ghost use Rattle.ass_num.specs.Limits.{IsFrameSize, IsWithin, max_instant};

use ass_num::Size;

const MAX_FRAME_SIDE: u32 = 4096;

const MAX_INSTANT: i64 = 4_000_000_000_000;

/// Whether a picture may be asked for at this instant.
pub fn is_instant(at: i64) -> bool
    ensures { Decides result (IsWithin max_instant at) }
{
    -MAX_INSTANT <= at && at <= MAX_INSTANT
}

/// Whether a frame may have this size, and a picture be asked for at this instant.
pub fn may_be_shown(at: i64, size: &Size) -> bool
    ensures { Decides result (IsFrameSize size.now × IsWithin max_instant at) }
{
    size.w <= MAX_FRAME_SIDE && size.h <= MAX_FRAME_SIDE && is_instant(at)
}
