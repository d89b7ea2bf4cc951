//! The laws of the draws of an event. The functions do nothing: their contracts are the laws.

ghost use Rattle.draw_laws.specs.Fades.{FadedEventsAreTransparent};
ghost use Rattle.draw_laws.specs.Layers.{EventsAreDrawnInLayers};
ghost use Rattle.draw_laws.specs.Moves.{WholePixelsMoveDraws};

/// Where an event is wholly faded out, each colour of its draws is wholly transparent.
pub fn faded_events_are_transparent()
    ensures { FadedEventsAreTransparent }
{}

/// An event whose places are moved by whole pixels is laid out as before, and each of its draws is moved by as much: its masks, its
/// colours and its clip stay, and a sweep has come as much farther.
pub fn whole_pixels_move_draws()
    ensures { WholePixelsMoveDraws }
{}

/// The draws of an event are those of the runs of its lines: all shadows, above them all borders and boxes, and above these all fills,
/// each in its colour. Each has the masks of its run's items that may reach the frame, and no others; and a fill is softened just where
/// no border lies under it.
pub fn events_are_drawn_in_layers()
    ensures { EventsAreDrawnInLayers }
{}
