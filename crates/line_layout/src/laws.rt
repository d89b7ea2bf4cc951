//! What holds of the definitions themselves. The functions do nothing: their contracts are the laws.

ghost use Rattle.std.specs.Prelude.{◌≡◌, ℕ, ℤ, Bool, List};
ghost use Rattle.line_layout.specs.Breaks.{AreFilled, IsBest, IsParagraph};

/// Each paragraph has a best set of break places, whatever the maximum: one that is greatest among equals, and one that is least.
pub fn a_best_set_exists()
    ensures { (widths : List ℤ) (spaces : List ℕ) (max : ℤ) (greatest : Bool) → IsParagraph widths spaces → (places : List ℕ)
        × IsBest widths spaces max greatest places }
{}

/// There is one best set of either kind, and one way to fill lines from the front.
pub fn one_best_set()
    ensures best { (widths : List ℤ) (spaces : List ℕ) (max : ℤ) (greatest : Bool) (places others : List ℕ) → IsBest widths spaces max greatest places
        → IsBest widths spaces max greatest others → places ≡ others }
    ensures filled { (widths : List ℤ) (spaces : List ℕ) (max : ℤ) (places others : List ℕ) → AreFilled widths spaces max 0 places
        → AreFilled widths spaces max 0 others → places ≡ others }
{}
