//! Sums with the weights 1 2 1.

ghost use Rattle.std.specs.Prelude.{◌≡◌, ℕ, ℤ, pos, ◌≤◌, ◌<◌, ◌+◌, ◌*◌, ◌/◌, ◌+ℤ◌, ◌-ℤ◌, length, slice_index};
ghost use Rattle.mask_blur.specs.Lines.{Lays, IsZeroBeside};
ghost use Rattle.mask_blur.specs.Softening.{softer};

/// The sums of three rows with the weights 1 2 1, behind the first two sums.
fn weigh_rows(sums: &mut [u16], above: &[u8], middle: &[u8], below: &[u8])
    requires room { length middle.now + 2 ≤ length sums.old }
    requires above { length above.now ≡ length middle.now }
    requires below { length below.now ≡ length middle.now }
    ensures sums { (k : ℕ) → k < length middle.now
        → slice_index sums.new (k + 2) ≡ slice_index above.now k + 2 * slice_index middle.now k + slice_index below.now k }
    ensures before { (k : ℕ) → k < 2 → slice_index sums.new k ≡ slice_index sums.old k }
    ensures behind { (k : ℕ) → length middle.now + 2 ≤ k → slice_index sums.new k ≡ slice_index sums.old k }
{
    for k in 0..middle.len() {
        sums[k + 2] = u16::from(above[k]) + 2 * u16::from(middle[k]) + u16::from(below[k]);
    }
}

/// The 16ths of the sums of three neighbours with the weights 1 2 1.
fn weigh_row(row: &mut [u8], sums: &[u16])
    requires room { length row.old + 2 ≤ length sums.now }
    requires small { (k : ℕ) → slice_index sums.now k ≤ 1020 }
    ensures { (k : ℕ) → k < length row.old
        → slice_index row.new k ≡ (slice_index sums.now k + 2 * slice_index sums.now (k + 1) + slice_index sums.now (k + 2) + 8) / 16 }
{
    for k in 0..row.len() {
        row[k] = ((sums[k] + 2 * sums[k + 1] + sums[k + 2] + 8) / 16) as u8;
    }
}

/// One row of a pass, wider by a byte on each side than the three rows around it. The sums are 0 but for those of the rows' columns.
pub fn soften_row(row: &mut [u8], sums: &mut [u16], above: &[u8], middle: &[u8], below: &[u8])
    requires room { length middle.now + 4 ≤ length sums.old }
    requires row { length row.old ≡ length middle.now + 2 }
    requires above { length above.now ≡ length middle.now }
    requires below { length below.now ≡ length middle.now }
    requires before { (k : ℕ) → k < 2 → slice_index sums.old k ≡ 0 }
    requires behind { (k : ℕ) → length middle.now + 2 ≤ k → slice_index sums.old k ≡ 0 }
    ensures before { (k : ℕ) → k < 2 → slice_index sums.new k ≡ 0 }
    ensures behind { (k : ℕ) → length middle.now + 2 ≤ k → slice_index sums.new k ≡ 0 }
    ensures softer { (f : ℤ → ℤ → ℕ) (x y : ℤ) → ((v : ℤ) → IsZeroBeside (λ u. f u v) x (length middle.now))
        → Lays (λ u. f u (y -ℤ pos 1)) x above.now → Lays (λ u. f u y) x middle.now → Lays (λ u. f u (y +ℤ pos 1)) x below.now
        → Lays (λ u. softer f u y) (x -ℤ pos 1) row.new }
{
    weigh_rows(sums, above, middle, below);
    weigh_row(row, sums);
}
