//! Transposing 16 by 16 bytes.

ghost use Rattle.std.specs.Prelude.{◌≡◌, ℕ, ◌+◌, ◌*◌, ◌/◌, ◌%◌, ◌<◌, ◌≤◌, ◌⊎◌, length, slice_index};
ghost use Rattle.mask_blur.specs.Transposed.{IsTransposedAt, IsInTile};

/// The bytes of two halves by turns: after four times the columns of 16 rows of 16 bytes are rows.
fn interleave(to: &mut [u8; 256], from: &[u8; 256])
    ensures { (k : ℕ) → k < 256 → slice_index to.new k ≡ slice_index from.now (k / 2 + 128 * (k % 2)) }
{
    for k in 0..128 {
        to[2 * k] = from[k];
        to[2 * k + 1] = from[k + 128];
    }
}

/// Sixteen bytes each of sixteen rows of `w` bytes.
fn take_tile(tile: &mut [u8; 256], from: &[u8], w: usize, start: usize)
    requires room { start + 15 * w + 16 ≤ length from.now }
    ensures { (k : ℕ) → k < 256 → slice_index tile.new k ≡ slice_index from.now (start + k / 16 * w + k % 16) }
{
    for i in 0..16 {
        let at = start + i * w;
        tile[16 * i..16 * i + 16].copy_from_slice(&from[at..at + 16]);
    }
}

/// Writes a tile from place `j` of row `i` on, where a row has `h` bytes.
fn put_tile(to: &mut [u8], tile: &[u8; 256], h: usize, i: usize, j: usize)
    requires columns { j + 16 ≤ h }
    requires rows { (i + 16) * h ≤ length to.old }
    ensures { (f : ℕ → ℕ → ℕ) → ((a b : ℕ) → a < 16 → b < 16 → slice_index tile.now (16 * a + b) ≡ f (i + a) (j + b))
        → (u v : ℕ) → v < h → IsInTile i j u v ⊎ (slice_index to.old (u * h + v) ≡ f u v) → slice_index to.new (u * h + v) ≡ f u v }
{
    for a in 0..16 {
        let at = (i + a) * h + j;
        to[at..at + 16].copy_from_slice(&tile[16 * a..16 * a + 16]);
    }
}

/// Transposes 16 by 16 bytes, and leaves what is transposed already.
pub fn transpose_tile(to: &mut [u8], from: &[u8], w: usize, h: usize, i: usize, j: usize)
    requires columns { i + 16 ≤ w }
    requires rows { j + 16 ≤ h }
    requires from { h * w ≤ length from.now }
    requires to { w * h ≤ length to.old }
    ensures { (u v : ℕ) → v < h → IsInTile i j u v ⊎ IsTransposedAt w h from.now to.old u v → IsTransposedAt w h from.now to.new u v }
{
    let mut tile = [0; 256];
    let mut spare = [0; 256];
    take_tile(&mut tile, from, w, j * w + i);
    interleave(&mut spare, &tile);
    interleave(&mut tile, &spare);
    interleave(&mut spare, &tile);
    interleave(&mut tile, &spare);
    put_tile(to, &tile, h, i, j);
}
