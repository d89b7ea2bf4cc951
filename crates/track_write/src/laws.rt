//! What holds of all written scripts and of all shifted events. The functions do nothing: their contracts are the laws.

ghost use Rattle.track_write.specs.Laws.{ScriptsAreReadBack, EventsAreReadBack, StylesAreSpelled, NearEventsAreMoved};

/// A text that is written is read back: it spells the same header and the same styles, and its line at each place gives
/// the event at that place, with the place as its ReadOrder. That holds of each script that is read from some bytes.
pub fn written_is_read_back()
    ensures script { ScriptsAreReadBack }
    ensures events { EventsAreReadBack }
    ensures spelled { StylesAreSpelled }
{}

/// Shifted events matter at the shifted instant exactly where the old ones did at the old one, in the same order.
pub fn near_events_are_moved()
    ensures { NearEventsAreMoved }
{}
