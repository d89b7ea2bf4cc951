//! Walks from the last span to the first, which find what matters at an instant.

ghost use Rattle.std.specs.Prelude.{◌≡◌, OnOk};
ghost use Rattle.near_events.specs.Walks.{first_walk, stepped, walk_of, walked_spans};

use crate::spans::EventSpan;
use ass_num::Mem;
use std::alloc::Global;

/// What a walk found so far, the last span first. Where a span was found, its layer and its start.
#[derive(Drop)]
pub struct Walk {
    pub found: Vec<EventSpan>,
    pub layer: i32,
    pub least: i64,
}

impl Walk {
    /// The walk at the instant `t`, in milliseconds, that has found nothing yet.
    pub fn new(alloc: Global, t: i64) -> Walk
        ensures { walk_of result ≡ first_walk t }
    {
        Walk {
            found: Vec::new(alloc),
            layer: 0,
            least: t,
        }
    }

    /// Goes on to the span, which matters where it is shown at t, or ends after the start of the one found last of its layer.
    fn step(&mut self, t: i64, span: &EventSpan) -> Mem<()>
        ensures { OnOk result (walk_of self.new ≡ stepped t (walk_of self.old) span.now) }
    {
        let least = if span.layer == self.layer {
            self.least
        } else {
            t
        };
        if span.start <= t && least < span.end {
            self.found.push(*span)?;
            self.layer = span.layer;
            self.least = span.start;
        }
        Ok(())
    }

    /// Goes on over these spans, the last one first.
    pub fn go_over(&mut self, t: i64, spans: &[EventSpan]) -> Mem<()>
        ensures { OnOk result (walk_of self.new ≡ walked_spans t (walk_of self.old) spans.now) }
    {
        let mut rest = spans.len();
        'down: while rest > 0 {
            rest -= 1;
            self.step(t, &spans[rest])?;
        }
        Ok(())
    }
}
