//! Laws of widened sets of samples.

ghost use Rattle.std.specs.Prelude.{◌≡◌, ℕ, ℤ, Bool};
ghost use Rattle.region_rows.specs.Widened.{in_widened};

/// Tests that agree at all samples are widened alike.
pub fn same_widened()
    ensures { (p q : ℤ → ℤ → Bool) → ((i j : ℤ) → p i j ≡ q i j) → (rx ry : ℕ) (i j : ℤ) → in_widened p rx ry i j ≡ in_widened q rx ry i j }
{}
