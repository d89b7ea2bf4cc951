//! What the offers of a play come to. The function does nothing: its contract is the law.

ghost use Rattle.std.specs.Prelude.{◌≡◌, ℕ, ◌<◌, Bool, true, false, List, length, slice_index_or};
ghost use Rattle.run_words.specs.Jobs.{IsPlay};
ghost use Rattle.run_words.specs.declared.job.PlayJob.{PlayJob};
ghost use Rattle.play_shares.specs.Offers.{AreAllOffered, IsOfOneFeeder};

/// In all rounds together the feeders offer each line that gives an event once, those of a feeder in their order, and besides of each batch
/// but a feeder's last the last ones that give events once more.
pub fn all_lines_are_offered()
    ensures each { (play : PlayJob) (good : List Bool) (feeder : ℕ) → IsPlay play → feeder < play.feeders → AreAllOffered play good feeder }
    ensures covered { (play : PlayJob) (good : List Bool) (line : ℕ) → line < length good → slice_index_or good line false ≡ true
        → IsOfOneFeeder play good line }
{}
