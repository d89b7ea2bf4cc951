//! Laws of plays. The functions do nothing: their contracts are the laws.

ghost use Rattle.play_laws.specs.Agreement.{EarlyRunsAgree, SelftestsAgree, SettledPlaysAgree, SettledRunsAgree};
ghost use Rattle.play_laws.specs.Completeness.{PlaysAreDone};
ghost use Rattle.play_laws.specs.Counts.{FedLinesAreCounted, RepeatsAreCounted};
ghost use Rattle.play_laws.specs.Fronts.{FrontsAreOfPlays, FrontsGoOn, PlaysHavePictures, SettledFrontsAgree};
ghost use Rattle.play_laws.specs.Selftests.{SelftestsAcceptAll, SelftestsAreDone};
ghost use Rattle.play_laws.specs.StillPlays.{StillsShowThePlay};
ghost use Rattle.play_laws.specs.Writing.{WrittenRunsShowTheSame};

use picture_exists::a_picture_exists;
use picture_laws::{one_picture, rewritten_scripts_show_the_same};
use run_status::files_decide;
use script_laws::generated_scripts_are_read;
use still_images::stills_show_all;

/// Two settled plays of the same script and fonts, at the same instants, as often, of the same size and in the same format, put the
/// same bytes: no number of feeders, renderers, lines of a batch, lines offered again, instants warmed ahead, bands or bytes of a
/// budget changes one.
pub fn settled_plays_agree()
    ensures { SettledPlaysAgree }
{
    one_picture();
}

/// So do two settled runs over the same files that are both done, where it is told what the files hold. One that ends in any other way
/// has put a prefix of that.
pub fn settled_runs_agree()
    ensures done { SettledRunsAgree }
    ensures early { EarlyRunsAgree }
{
    one_picture();
    files_decide();
}

/// A seed and a number of events have one report, whatever the number of workers.
pub fn selftests_agree()
    ensures { SelftestsAgree }
{
    one_picture();
}

/// A selftest is done, but for lack of memory and a fault of its report: its script is never refused. Where it is done, its
/// report says that each event was accepted.
pub fn selftests_are_done()
    ensures done { SelftestsAreDone }
    ensures report { SelftestsAcceptAll }
{
    generated_scripts_are_read();
}

/// A play whose files are right is done, but for faults and out of memory.
pub fn plays_are_done()
    ensures { PlaysAreDone }
{}

/// What a play that ended early has written is a prefix of the images of as many whole times as it was to be played. Each of them
/// has a picture at each instant, so it is a prefix of what a whole play puts.
pub fn fronts_go_on()
    ensures times { FrontsGoOn }
    ensures pictures { PlaysHavePictures }
    ensures plays { FrontsAreOfPlays }
{
    a_picture_exists();
}

/// What a settled play that ended early has written is a prefix of what a whole one puts that is of the same script and fonts, at the
/// same instants, as often, of the same size and in the same format.
pub fn settled_fronts_agree()
    ensures { SettledFrontsAgree }
{
    one_picture();
}

/// A play of only what changes, expanded by its index, is the play without it: at each instant of each time of a settled play the image
/// is that of the last kept picture that isn't behind it. Each kept picture is its part, laid in its box over the one before it.
pub fn stills_show_the_play()
    ensures { StillsShowThePlay }
{
    one_picture();
    files_decide();
    stills_show_all();
}

/// By the numbers of lines: how many events the rounds before one feed, and how many are repeated in a time.
pub fn rounds_are_counted()
    ensures fed { FedLinesAreCounted }
    ensures repeated { RepeatsAreCounted }
{}

/// What a command `write` that is done has put is read as a script. It shows, at each instant that is so much later and so much
/// earlier, what the script of the command shows at the old one, in whatever fonts and on a frame of whatever size.
pub fn written_runs_show_the_same()
    ensures { WrittenRunsShowTheSame }
{
    rewritten_scripts_show_the_same();
}
