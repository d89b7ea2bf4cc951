//! The list of images that ffmpeg joins.

ghost use Rattle.std.specs.Prelude.{◌≡◌, ◌++◌, IfOk, OnOk, length, string_bytes};
ghost use Rattle.still_lists.specs.ConcatLists.{concat_text, duration_line, file_entry, file_lines, last_again, seconds_digits, shown_from};

use crate::entry::StillEntry;
use ass_num::Mem;
use std::alloc::Global;

/// Milliseconds in seconds.
fn seconds_digits(alloc: Global, time: u64) -> Mem<String>
    ensures { IfOk result (λ text. string_bytes text ≡ seconds_digits time) }
{
    let seconds = time / 1000;
    let tenth = time / 100 % 10;
    let hundredth = time / 10 % 10;
    let thousandth = time % 10;
    Ok(format!(in alloc; "{seconds}.{tenth}{hundredth}{thousandth}")?)
}

/// The line on how long an image is shown.
fn duration_line(alloc: Global, time: u64) -> Mem<String>
    ensures { IfOk result (λ line. string_bytes line ≡ duration_line time) }
{
    let seconds = seconds_digits(alloc, time)?;
    let seconds = seconds.as_str();
    Ok(format!(in alloc; "duration {seconds}\n")?)
}

/// The lines on the file of image `k`, whose times are in milliseconds.
fn file_entry(alloc: Global, format: &str, k: usize) -> Mem<String>
    ensures { IfOk result (λ line. string_bytes line ≡ file_entry format.now k) }
{
    Ok(format!(in alloc; "file image-{k}.{format}\noption framerate 1000\n")?)
}

/// The instant at which the first of these images is shown, or the end where there is none.
fn shown_from(entries: &[StillEntry], end: u64) -> u64
    ensures { result ≡ shown_from entries.now end }
{
    match entries {
        [] => end,
        [entry, ..] => entry.t,
    }
}

/// Adds the lines on image `k`, which is shown for so long.
fn add_file(alloc: Global, format: &str, k: usize, time: u64, text: &mut String) -> Mem<()>
    ensures { OnOk result (string_bytes text.new ≡ string_bytes text.old ++ file_entry format.now k ++ duration_line time) }
{
    let file = file_entry(alloc, format, k)?;
    text.push_str(file.as_str())?;
    let duration = duration_line(alloc, time)?;
    text.push_str(duration.as_str())?;
    Ok(())
}

/// Adds the lines on all images.
fn add_files(
    alloc: Global,
    format: &str,
    entries: &[StillEntry],
    end: u64,
    text: &mut String,
) -> Mem<()>
    ensures { OnOk result (string_bytes text.new ≡ string_bytes text.old ++ file_lines format.now 0 entries.now end) }
{
    for (k, entry) in entries.iter().enumerate() {
        let next = shown_from(&entries[k + 1..], end);
        add_file(alloc, format, k, next.saturating_sub(entry.t), text)?;
    }
    Ok(())
}

/// The lines on the last of so many images once more.
fn last_again(alloc: Global, format: &str, count: usize) -> Mem<String>
    ensures { IfOk result (λ line. string_bytes line ≡ last_again format.now count) }
{
    if count == 0 {
        return Ok(String::new(alloc));
    }
    file_entry(alloc, format, count - 1)
}

/// The list of kept pictures in the form of ffmpeg's concat demuxer: `image-K.FORMAT` for each, with how long it is shown, the
/// last of them until the end.
pub fn concat_text(alloc: Global, format: &str, entries: &[StillEntry], end: u64) -> Mem<String>
    ensures { IfOk result (λ text. string_bytes text ≡ concat_text format.now entries.now end) }
{
    let mut text = String::from_str(alloc, "ffconcat version 1.0\n")?;
    add_files(alloc, format, entries, end, &mut text)?;
    let last = last_again(alloc, format, entries.len())?;
    text.push_str(last.as_str())?;
    Ok(text)
}
