//! What a look shows.

use ass_events::Event;
use ass_num::Items;
use near_events::EventSpan;
use std::sync::Arc;

/// What a track shows for a picture at an instant.
#[derive(Drop)]
pub struct Scene {
    /// How many entries the history had.
    pub n: usize,
    /// The instant, in milliseconds.
    pub t: i64,
    /// The live events that matter at the instant, by start and then ReadOrder: those that are shown, and of their layers the
    /// earlier ones that they are placed clear of.
    pub events: Items<Arc<Event>>,
    /// Their spans, by layer, then start, then ReadOrder.
    pub spans: Items<EventSpan>,
}
