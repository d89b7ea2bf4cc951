//! Whole runs of the program over real files. Their sinks are in memory.

use crate::telling::{parted, shown};
use ass_io::{FailingSink, FileShelf, MemorySink, NamedMemory, Rt, Shelf};
use ass_num::Mem;
use bstr::BStr;
use play_report::digest_after;
use run_reports::exit_of_asked;
use run_words::read_words;
use std::alloc::Global;
use test_hook::{NoHook, TestHook};

/// The words of a line.
pub fn words_of(alloc: Global, line: &str) -> Mem<Vec<String>> {
    let mut words = Vec::new(alloc);
    for word in line.split_whitespace() {
        words.push(String::from_str(alloc, word)?)?;
    }
    Ok(words)
}

/// What words ask for.
pub fn job(alloc: Global, line: &str) -> Mem<String> {
    let words = words_of(alloc, line)?;
    shown(alloc, &read_words(alloc, words.as_slice()))
}

/// A sink whose put of this number fails, and whose reader is gone then; 0 is none.
fn sink(alloc: Global, fail: u64) -> Mem<FailingSink> {
    let fails = vec![in alloc; fail]?;
    Ok(FailingSink::closing(MemorySink::new(alloc), fails))
}

/// A sink that makes files, unless `unmade` is another number than 0, and whose put of this number fails.
fn named_sink(alloc: Global, fail: u64, unmade: u64) -> Mem<NamedMemory> {
    Ok(NamedMemory::new(sink(alloc, fail)?, unmade == 0))
}

/// What came of a run.
#[derive(Drop)]
pub struct Ran {
    pub exit: u8,
    pub frames: FailingSink,
    pub index: NamedMemory,
    pub report: NamedMemory,
}

/// Does what the words ask for, where a put of an image and a put of a report fail: their numbers, or 0 for none. No file can be
/// made where `unmade` isn't 0.
pub fn run<S: Shelf, H: TestHook + Sync>(
    lent: &impl Rt,
    alloc: Global,
    line: &str,
    shelf: &mut S,
    [image, told, unmade]: [u64; 3],
    hook: &H,
) -> Mem<Ran> {
    let words = words_of(alloc, line)?;
    let mut frames = sink(alloc, image)?;
    let mut index = named_sink(alloc, 0, unmade)?;
    let mut report = named_sink(alloc, told, unmade)?;
    let words = words.as_slice();
    let exit = exit_of_asked(
        lent,
        alloc,
        words,
        shelf,
        &mut frames,
        &mut index,
        &mut report,
        hook,
    );
    Ok(Ran {
        exit,
        frames,
        index,
        report,
    })
}

/// A run over real files that is lent a hook.
pub fn over_files_hooked<H: TestHook + Sync>(
    lent: &impl Rt,
    rt: &HostRuntime,
    line: &str,
    hook: &H,
) -> Mem<Ran> {
    let mut shelf = FileShelf::new(*rt);
    run(lent, rt.alloc(), line, &mut shelf, [0, 0, 0], hook)
}

/// A run over real files.
pub fn over_files(lent: &impl Rt, rt: &HostRuntime, line: &str) -> Mem<Ran> {
    over_files_hooked(lent, rt, line, &NoHook)
}

/// The exit status, the report and the image.
pub fn ran_told(alloc: Global, ran: &Ran) -> Mem<String> {
    let (report, image) = (BStr::new(ran.report.bytes()), BStr::new(ran.frames.bytes()));
    shown(alloc, &(ran.exit, report, image))
}

/// What comes of a run over real files.
pub fn told(lent: &impl Rt, rt: &HostRuntime, line: &str) -> Mem<String> {
    let ran = over_files(lent, rt, line)?;
    ran_told(rt.alloc(), &ran)
}

/// The exit status, how much the sink of the list held before it made the file, and the list of images.
pub fn list(lent: &impl Rt, rt: &HostRuntime, line: &str) -> Mem<String> {
    let ran = over_files(lent, rt, line)?;
    let list = BStr::new(ran.index.bytes());
    shown(rt.alloc(), &(ran.exit, ran.index.file_at(), list))
}

/// The exit status, and the digest of the images.
pub fn digest(lent: &impl Rt, rt: &HostRuntime, line: &str) -> Mem<String> {
    let ran = over_files(lent, rt, line)?;
    shown(rt.alloc(), &(ran.exit, digest_after(0, ran.frames.bytes())))
}

/// The three bytes at a place.
fn pixel_at<'a>(image: &'a [u8], place: &str) -> Option<&'a [u8]> {
    let place = place.parse::<u32>().unwrap_or(0) as usize;
    image.get(place..place + 3)
}

/// The exit status, how long the image is, and three bytes of it: their place, and the words.
pub fn pixel(lent: &impl Rt, rt: &HostRuntime, question: &str) -> Mem<String> {
    let (place, line) = parted(question, " ");
    let ran = over_files(lent, rt, line)?;
    let image = ran.frames.bytes();
    shown(rt.alloc(), &(ran.exit, image.len(), pixel_at(image, place)))
}
