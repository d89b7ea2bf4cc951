//! Laws of plays. Each function does nothing: its contract is the law.

ghost use Rattle.std.specs.Prelude.{[]};
ghost use Rattle.play_model.specs.Images.{PixmapsArePictures};
ghost use Rattle.play_model.specs.Outputs.{SettledPlaysAreFixed};
ghost use Rattle.play_model.specs.Plays.{IsFedTo, PlayView};
ghost use Rattle.play_model.specs.Times.{ImagesFollow, ImagesStay, RoundsBoundImages, ShownImagesAreImages, ShownImagesFollow, ShownImagesStay};
ghost use Rattle.play_model.specs.Times.{StoppedTimesAreFronts, TimesEndInFlushes, TimesFollow};
ghost use Rattle.play_model.specs.Rounds.{AllRoundsFeedAll, GoodLinesHaveAllEvents, LinesHaveShortChunks, LiveCountsAreBounded, RoundsAreCounted};
ghost use Rattle.play_model.specs.Rounds.{RoundsFeedOn, TimesHaveAllEvents};

/// The images of a settled play are those of all events of the script, whoever fed and drew them, and in whatever rounds.
pub fn settled_plays_are_fixed()
    ensures { SettledPlaysAreFixed }
{}

/// A live image is of no more entries than its time has, and of all of them once all lines were fed in rounds before its own.
pub fn live_counts_are_bounded()
    ensures { LiveCountsAreBounded }
{}

/// Each round adds the events of its batches, each once, and repeats just those that are offered once more. All rounds together add all events.
pub fn rounds_feed_on()
    ensures none { (play : PlayView) → IsFedTo play 0 [] }
    ensures more { RoundsFeedOn }
    ensures count { RoundsAreCounted }
    ensures all { AllRoundsFeedAll }
{}

/// A whole time has as many entries as the script has events, and these are live behind it.
pub fn times_have_all_events()
    ensures { TimesHaveAllEvents }
{}

/// What is left out of a feeder's lines has no event, and the chunk of a line that has one may be fed.
pub fn lines_may_be_fed()
    ensures events { GoodLinesHaveAllEvents }
    ensures short { LinesHaveShortChunks }
{}

/// Times stand one behind another with a flush between, and each image stays that of its time.
pub fn times_follow()
    ensures dead { TimesEndInFlushes }
    ensures history { TimesFollow }
    ensures stays { ImagesStay }
    ensures images { ImagesFollow }
    ensures stopped { StoppedTimesAreFronts }
{}

/// So do images with the numbers of their composed masks.
pub fn shown_images_follow()
    ensures stays { ShownImagesStay }
    ensures follow { ShownImagesFollow }
    ensures are { ShownImagesAreImages }
{}

/// A live image is of at least as many entries as the rounds before its own fed, and of at most as many as they and its own did.
pub fn rounds_bound_images()
    ensures { RoundsBoundImages }
{}

/// The images of a play whose format is a pixmap are those of its pictures on black.
pub fn pixmaps_are_pictures()
    ensures { PixmapsArePictures }
{}
