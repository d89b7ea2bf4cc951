//! Plays whose threads are held and counted by hooks, over a script that stands in a row.

use crate::counting::Makings;
use crate::holding::{HoldingHook, MeetingHook};
use crate::runs::{Ran, over_files_hooked};
use crate::telling::{parted, shown};
use crate::texts::write_script;
use ass_io::Rt;
use ass_num::Mem;
use bstr::BStr;
use std::test::Fail;
use test_hook::TestHook;

/// A run that is lent a hook, over the script that was written: whether it was done.
fn is_done<H: TestHook + Sync>(
    lent: &impl Rt,
    rt: &HostRuntime,
    line: &str,
    hook: &H,
) -> Mem<bool> {
    let ran = over_files_hooked(lent, rt, line, hook)?;
    Ok(ran.exit == 0)
}

/// One thread is held that makes a value, until another has fed and a third has a frame: whether the run was done, and whether a
/// thread looked in vain.
fn held(lent: &impl Rt, rt: &HostRuntime, line: &str) -> Mem<String> {
    let hook = HoldingHook::new();
    let done = is_done(lent, rt, line, &hook)?;
    shown(rt.alloc(), &(done, hook.is_late()))
}

/// The same of two threads that meet.
fn met(lent: &impl Rt, rt: &HostRuntime, line: &str, hook: &MeetingHook) -> Mem<String> {
    let done = is_done(lent, rt, line, hook)?;
    shown(rt.alloc(), &(done, hook.is_late()))
}

fn counts_told(rt: &HostRuntime, ran: &Ran, counts: [u64; 3]) -> Mem<String> {
    shown(
        rt.alloc(),
        &(ran.exit, BStr::new(ran.report.bytes()), counts),
    )
}

/// The exit status, the report, and how many values of each kind threads began to make.
fn counted(lent: &impl Rt, rt: &HostRuntime, line: &str) -> Mem<String> {
    let hook = Makings::new();
    let ran = over_files_hooked(lent, rt, line, &hook)?;
    counts_told(rt, &ran, hook.counts())
}

fn hooked(lent: &impl Rt, rt: &HostRuntime, hook: &str, line: &str) -> Mem<String> {
    match hook {
        "held" => held(lent, rt, line),
        "feeders" => met(lent, rt, line, &MeetingHook::of_feeders()),
        "makers" => met(lent, rt, line, &MeetingHook::of_makers()),
        _ => counted(lent, rt, line),
    }
}

/// What comes of a run: the hook's name, the words, a bar, and the script, whose lines end at bars.
pub fn told(lent: &impl Rt, rt: &HostRuntime, question: &str) -> Result<String, Fail> {
    let (run, script) = parted(question, " |");
    let (hook, line) = parted(run, " ");
    write_script(rt, "none.ass", script)?;
    Ok(hooked(lent, rt, hook, line)?)
}
