//! Laws of rates. The function does nothing: its contract is the laws.

ghost use Rattle.frame_rate.specs.Instants.{CountedInstantsAreThere};
ghost use Rattle.frame_rate.specs.Rates.{CountedFramesComeBefore, FramesAreOnTime, StepsAreRates};

/// Frames are on time, those that are counted come before the end, as many as are asked for are there, and steps are rates.
pub fn frames_are_on_time()
    ensures time { FramesAreOnTime }
    ensures count { CountedFramesComeBefore }
    ensures asked { CountedInstantsAreThere }
    ensures steps { StepsAreRates }
{}
