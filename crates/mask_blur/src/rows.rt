//! Rows of bytes.

ghost use Rattle.std.specs.Prelude.{◌≡◌, ℕ, ℤ, pos, ◌≤◌, ◌<◌, ◌+◌, ◌*◌, ◌+ℤ◌, ◌-ℤ◌, length, slice_index};
ghost use Rattle.mask_blur.specs.Shown.{Shows};

/// Row `k - skip` of `h` rows, or the zeros where there is no such row. A row has as many bytes as there are zeros.
pub fn row_or_zeros<'a>(
    bytes: &'a [u8],
    zeros: &'a [u8],
    h: usize,
    k: usize,
    skip: usize,
) -> &'a [u8]
    requires rows { h * length zeros.now ≤ length bytes.now }
    requires zeros { (i : ℕ) → slice_index zeros.now i ≡ 0 }
    ensures count { length result.now ≡ length zeros.now }
    ensures row { (f : ℤ → ℤ → ℕ) (x y : ℤ) → Shows f x y (length zeros.now) h bytes.now
        → (i : ℕ) → i < length zeros.now → slice_index result.now i ≡ f (x +ℤ pos i) ((y +ℤ pos k) -ℤ pos skip) }
{
    if k < skip || h <= k - skip {
        return zeros;
    }
    let start = (k - skip) * zeros.len();
    &bytes[start..start + zeros.len()]
}

/// Sixteen bytes from place `start` on.
pub fn part_at(bytes: &[u8], start: usize) -> [u8; 16]
    requires { start + 16 ≤ length bytes.now }
    ensures { (i : ℕ) → i < 16 → slice_index result i ≡ slice_index bytes.now (start + i) }
{
    let mut part = [0; 16];
    // one by one: a copy of slices would test whether they overlap
    for i in 0..16 {
        part[i] = bytes[start + i];
    }
    part
}

/// Sixteen bytes, from place `at` on, of row `k - skip` of `h` rows of `w` bytes, or zeros where there is no such row.
pub fn part_or_zeros(bytes: &[u8], w: usize, h: usize, k: usize, skip: usize, at: usize) -> [u8; 16]
    requires rows { h * w ≤ length bytes.now }
    requires columns { at + 16 ≤ w }
    ensures { (f : ℤ → ℤ → ℕ) (x y : ℤ) → Shows f x y w h bytes.now
        → (i : ℕ) → i < 16 → slice_index result i ≡ f (x +ℤ pos (at + i)) ((y +ℤ pos k) -ℤ pos skip) }
{
    if k < skip || h <= k - skip {
        return [0; 16];
    }
    part_at(bytes, (k - skip) * w + at)
}
