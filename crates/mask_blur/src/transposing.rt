//! Transposing rows of bytes.

ghost use Rattle.std.specs.Prelude.{◌≡◌, ℕ, ◌+◌, ◌*◌, ◌<◌, ◌≤◌, ◌⊎◌, length, slice_index};
ghost use Rattle.mask_blur.specs.Transposed.{IsTransposedAt};

use crate::tiles::transpose_tile;

/// Transposes 16 rows from row `j` on, and leaves what is transposed already.
fn transpose_rows(to: &mut [u8], from: &[u8], w: usize, h: usize, j: usize)
    requires columns { 16 ≤ w }
    requires rows { j + 16 ≤ h }
    requires from { h * w ≤ length from.now }
    requires to { w * h ≤ length to.old }
    ensures { (u v : ℕ) → u < w → v < h → ((j ≤ v) × (v < j + 16)) ⊎ IsTransposedAt w h from.now to.old u v → IsTransposedAt w h from.now to.new u v }
{
    for k in 0..w / 16 {
        transpose_tile(to, from, w, h, 16 * k, j);
    }
    transpose_tile(to, from, w, h, w - 16, j);
}

/// Transposes at least 16 by 16 bytes.
fn transpose_all(to: &mut [u8], from: &[u8], w: usize, h: usize)
    requires columns { 16 ≤ w }
    requires rows { 16 ≤ h }
    requires from { h * w ≤ length from.now }
    requires to { w * h ≤ length to.old }
    ensures { (u v : ℕ) → u < w → v < h → IsTransposedAt w h from.now to.new u v }
{
    for k in 0..h / 16 {
        transpose_rows(to, from, w, h, 16 * k);
    }
    transpose_rows(to, from, w, h, h - 16);
}

/// Column `u` of rows of `w` bytes.
fn take_column(to: &mut [u8], from: &[u8], w: usize, u: usize)
    requires column { u < w }
    requires from { length to.old * w ≤ length from.now }
    ensures { (v : ℕ) → v < length to.old → slice_index to.new v ≡ slice_index from.now (v * w + u) }
{
    for v in 0..to.len() {
        to[v] = from[v * w + u];
    }
}

/// Transposes bytes one by one.
fn transpose_few(to: &mut [u8], from: &[u8], w: usize, h: usize)
    requires from { h * w ≤ length from.now }
    requires to { w * h ≤ length to.old }
    ensures { (u v : ℕ) → u < w → v < h → IsTransposedAt w h from.now to.new u v }
{
    for u in 0..w {
        take_column(&mut to[u * h..u * h + h], from, w, u);
    }
}

/// The columns of `h` rows of `w` bytes, as `w` rows of `h` bytes.
pub fn transpose(to: &mut [u8], from: &[u8], w: usize, h: usize)
    requires from { h * w ≤ length from.now }
    requires to { w * h ≤ length to.old }
    ensures { (u v : ℕ) → u < w → v < h → IsTransposedAt w h from.now to.new u v }
{
    if w < 16 || h < 16 {
        transpose_few(to, from, w, h);
    } else {
        transpose_all(to, from, w, h);
    }
}
