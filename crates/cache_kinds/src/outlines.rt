//! The numbers of outlines' keys.

ghost use Rattle.std.specs.Prelude.{◌≡◌};
ghost use Rattle.flight_cache.specs.Meaning.{mixed_all};
ghost use Rattle.mask_keys.specs.Numbers.{matrix_numbers, outline_numbers};

use crate::paths::add_segments;
use crate::words::{add_flag, add_length, add_word};
use ass_num::Matrix;
use flight_cache::ShardSum;
use mask_keys::OutlineKey;

fn add_matrix(m: &Matrix, sum: &mut ShardSum)
    ensures { sum.new ≡ mixed_all sum.old (matrix_numbers m.now) }
{
    add_word(m.ux, sum);
    add_word(m.uy, sum);
    add_flag(m.italic, sum);
    add_word(m.turn, sum);
}

/// Adds the numbers of an outline's key, one after another.
pub fn add_outline_numbers(key: &OutlineKey, sum: &mut ShardSum)
    ensures { sum.new ≡ mixed_all sum.old (outline_numbers key.now) }
{
    match key {
        OutlineKey::Glyph {
            font,
            glyph,
            m,
            bold,
            underline,
            strikeout,
        } => {
            sum.add(0);
            sum.add(*font);
            sum.add(*glyph);
            add_matrix(m, sum);
            add_flag(*bold, sum);
            add_flag(*underline, sum);
            add_flag(*strikeout, sum);
        }
        OutlineKey::Drawing { path, m, shift } => {
            sum.add(1);
            add_length(path.segs.as_slice(), sum);
            add_segments(path.segs.as_slice(), sum);
            add_matrix(m, sum);
            add_word(*shift, sum);
        }
        OutlineKey::Box { w, h, turn } => {
            sum.add(2);
            add_word(*w, sum);
            add_word(*h, sum);
            add_word(*turn, sum);
        }
    }
}
