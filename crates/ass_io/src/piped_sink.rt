//! Where bytes go that somebody reads.

ghost use Rattle.std.specs.Prelude.{◌≡◌, Bool};

use crate::sink::Sink;

/// A sink that knows whether its reader is gone.
pub trait PipedSink: Sink {
    ghost closed: { Self → Bool };

    /// Whether a put failed since nobody reads any more.
    fn is_closed(&self) -> bool
        ensures { result ≡ closed self.now };
}
