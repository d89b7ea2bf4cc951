//! What all workers of a play share.

ghost use Rattle.std.specs.Prelude.{◌≡◌, ◌<◌, ◌≤◌, IfOk, length};
ghost use Rattle.play_model.specs.Plays.{good_flags};

use ass_events::line_fault;
use ass_num::{Items, Mem};
use ass_script::Script;
use renderer::Renderer;
use run_words::PlayJob;
use std::alloc::Global;
use std::sync::Arc;

/// A job with its script and its renderer.
pub struct PlayStage {
    pub job: PlayJob,
    pub script: Arc<Script>,
    /// Of each Dialogue line whether it gives an event.
    pub good: Items<bool>,
    pub renderer: Renderer,
}

/// Of each Dialogue line whether it gives an event.
pub fn good_flags(alloc: Global, script: &Script) -> Mem<Items<bool>>
    ensures { IfOk result (λ good. good ≡ good_flags script.now) }
{
    let mut good = Items::with_capacity(alloc, script.line_count())?;
    for i in 0..script.line_count() {
        good.push(line_fault(script, i).is_none())?;
    }
    Ok(good)
}
