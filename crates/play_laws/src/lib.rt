//! The laws that settled plays of the same files agree, and selftests of the same script; that a play whose files are right is
//! done, and a selftest; that an early end is a prefix of whole times; how many events rounds feed and repeat; what a script
//! shows that was written again; and that a play of only what changes is expanded to the play without it.
#![tactic(auto)]

mod laws;

pub use laws::{
    fronts_go_on, plays_are_done, rounds_are_counted, selftests_agree, selftests_are_done,
    settled_fronts_agree, settled_plays_agree, settled_runs_agree, stills_show_the_play,
    written_runs_show_the_same,
};
