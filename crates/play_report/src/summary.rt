//! The report of a selftest.

ghost use Rattle.std.specs.Prelude.{◌≡◌, IfOk, string_bytes};
ghost use Rattle.play_report.specs.Reports.{summary_text};

use ass_num::Mem;
use std::alloc::Global;

/// The report of a selftest: its seed and its number of events, how many events were accepted and how many images were made, and the
/// digest of their bytes.
pub fn summary_text(
    alloc: Global,
    seed: u32,
    events: u32,
    accepted: usize,
    frames: u64,
    digest: u32,
) -> Mem<String>
    ensures { IfOk result (λ text. string_bytes text ≡ summary_text seed events accepted frames digest) }
{
    Ok(format!(in alloc;
        "selftest seed {seed} events {events}\naccepted {accepted}\nframes {frames}\ndigest {digest}\n"
    )?)
}
