//! How far a run is, on a terminal.

ghost use Rattle.std.specs.Prelude.{◌≡◌};

use ass_io::{Making, NamedSink, PipedSink, Put, Sink};
use std::io::Write;
use std::sync::atomic::{AtomicBool, AtomicU64, Ordering};
use std::time::{Duration, Instant};
use test_hook::{HookPoint, TestHook};

/// After how many images it is told where no more is asked for.
const PIECES: u64 = 100;

/// A sink that tells behind each hundredth piece how many it took, a line each, where that is watched.
#[derive(Drop)]
pub struct CountedSink<S: PipedSink + Drop, W: Write + Drop> {
    sink: S,
    told: W,
    is_watched: bool,
    pieces: u64,
}

impl<S: PipedSink + Drop, W: Write + Drop> CountedSink<S, W> {
    /// A sink that has taken nothing yet.
    pub fn new(sink: S, told: W, is_watched: bool) -> CountedSink<S, W> {
        CountedSink {
            sink,
            told,
            is_watched,
            pieces: 0,
        }
    }

    /// A terminal that can't be written to changes nothing.
    fn tell(&mut self)
        ensures { self.new.sink ≡ self.old.sink }
    {
        self.pieces = self.pieces.saturating_add(1);
        if self.is_watched && self.pieces % PIECES == 0 {
            let pieces = self.pieces;
            let _told = writeln!(self.told, "{pieces} images");
        }
    }
}

impl<S: PipedSink + Drop, W: Write + Drop> Sink for CountedSink<S, W> {
    ghost state = { λ s. S.state s.sink };

    fn put(&mut self, piece: &[u8]) -> Put {
        let put = self.sink.put(piece);
        // The head of a video is no image.
        if !piece.starts_with(b"YUV4MPEG2 ") {
            self.tell();
        }
        put
    }
}

impl<S: PipedSink + Drop, W: Write + Drop> PipedSink for CountedSink<S, W> {
    ghost closed = { λ s. S.closed s.sink };

    fn is_closed(&self) -> bool {
        self.sink.is_closed()
    }
}

/// How many images or lines a run has made of how many, drawn once a second on standard error.
#[derive(Drop)]
pub struct Meter {
    rt: HostRuntime,
    total: u64,
    start: Instant,
    made: AtomicU64,
    drawn_at: AtomicU64,
    is_drawn: AtomicBool,
}

impl Meter {
    /// A meter of a run that begins now; none where there is no clock.
    pub fn new(rt: HostRuntime, total: u64) -> Option<Meter> {
        let start = Instant::now(&rt).ok()?;
        Some(Meter {
            rt,
            total,
            start,
            made: AtomicU64::new(0),
            drawn_at: AtomicU64::new(0),
            is_drawn: AtomicBool::new(false),
        })
    }

    /// One more was made. It is drawn where it is the last one, or the first in a second. A terminal that can't be written to
    /// changes nothing.
    pub fn step(&self) {
        let made = self.made.fetch_add(1, Ordering::SeqCst).saturating_add(1);
        if let Ok(elapsed) = self.start.elapsed(&self.rt) {
            if made == self.total || self.is_due(elapsed.as_secs()) {
                self.draw(made, elapsed);
            }
        }
    }

    /// Whether nothing was drawn in this second yet.
    fn is_due(&self, second: u64) -> bool {
        let last = self.drawn_at.load(Ordering::SeqCst);
        second > last
            && self
                .drawn_at
                .compare_exchange(last, second, Ordering::SeqCst, Ordering::SeqCst)
                .is_ok()
    }

    fn draw(&self, made: u64, elapsed: Duration) {
        let total = self.total;
        let time = elapsed
            .as_secs()
            .saturating_mul(1000)
            .saturating_add(u64::from(elapsed.subsec_millis()));
        let tenths = made.saturating_mul(10_000) / time.max(1);
        let speed = tenths / 10;
        let tenth = tenths % 10;
        let left = total.saturating_sub(made).saturating_mul(time) / made.max(1) / 1000;
        let end = if made == total { "\n" } else { "" };
        self.is_drawn.store(made != total, Ordering::SeqCst);
        let mut stderr = self.rt.stderr();
        let _told = write!(
            stderr,
            "\r{made} of {total}, {speed}.{tenth} a second, {left} s left\x1b[K{end}"
        );
    }

    /// Takes what was drawn from its line, where that isn't ended.
    fn clear(&self) {
        if self.is_drawn.swap(false, Ordering::SeqCst) {
            let mut stderr = self.rt.stderr();
            let _told = write!(stderr, "\r\x1b[K");
        }
    }
}

/// Counts the images that are made, where that is watched.
#[derive(Drop)]
pub struct MeterHook {
    pub meter: Option<Meter>,
}

impl MeterHook {
    /// The run is over: where it stopped early, the terminal's line is left empty.
    pub fn end(&self) {
        if let Some(meter) = &self.meter {
            meter.clear();
        }
    }
}

impl TestHook for MeterHook {
    fn at(&self, point: HookPoint) {
        if let HookPoint::AfterFrame(_) = point {
            if let Some(meter) = &self.meter {
                meter.step();
            }
        }
    }
}

/// A report that counts its pieces, where they are what is made. What is drawn makes room for those that go to the terminal.
#[derive(Drop)]
pub struct MeteredReport<'m, S: NamedSink + Drop> {
    sink: S,
    meter: Option<&'m Meter>,
    counts: bool,
    is_apart: bool,
}

impl<'m, S: NamedSink + Drop> MeteredReport<'m, S> {
    /// A report over a sink that has made no file yet.
    pub fn new(sink: S, meter: Option<&'m Meter>, counts: bool) -> MeteredReport<'m, S> {
        MeteredReport {
            sink,
            meter,
            counts,
            is_apart: false,
        }
    }

    /// Before a piece is put.
    fn make_room(&self) {
        if let Some(meter) = self.meter {
            if !self.is_apart {
                meter.clear();
            }
        }
    }

    /// Behind it.
    fn count(&self) {
        if let Some(meter) = self.meter {
            if self.counts {
                meter.step();
            }
        }
    }
}

impl<'m, S: NamedSink + Drop> Sink for MeteredReport<'m, S> {
    ghost state = { λ s. S.state s.sink };

    fn put(&mut self, piece: &[u8]) -> Put {
        self.make_room();
        let put = self.sink.put(piece);
        self.count();
        put
    }
}

impl<'m, S: NamedSink + Drop> NamedSink for MeteredReport<'m, S> {
    fn make(&mut self, name: &str) -> Making {
        let making = self.sink.make(name);
        self.is_apart = self.is_apart || making == Making::Made;
        making
    }
}
