//! Laws of composed masks. The functions do nothing: their contracts are the laws.

ghost use Rattle.std.specs.Prelude.{◌≡◌, ℕ, ℤ, List, All};
ghost use Rattle.ass_num.specs.Coverage.{IsSum};
ghost use Rattle.ass_num.specs.Masks.{MaskValue};
ghost use Rattle.bdf_font.specs.Fonts.{FontValue};
ghost use Rattle.made_values.specs.Parts.{masks_of, placed_masks};
ghost use Rattle.mask_cover.specs.Sums.{IsPlaceableMask};
ghost use Rattle.mask_keys.specs.Keys.{IsValidPart};
ghost use Rattle.mask_keys.specs.Masks.{summed_mask};
ghost use Rattle.mask_keys.specs.Values.{composite_value};

use mask_keys::{CompositeKey, Part};

/// The sum of moved masks, as a function, is at each pixel their sum, at most 255, in the least box that has their boxes.
pub fn summed_masks_are_sums()
    ensures { (placed : List (MaskValue × ℤ × ℤ)) → All IsPlaceableMask placed → IsSum placed (summed_mask placed) }
{}

/// The masks of a key's parts are what `made_composite` asks for, and make the key's composed mask.
pub fn parts_make_their_composite()
    ensures value { (fonts : List FontValue) (key : CompositeKey)
        → summed_mask (placed_masks key.parts (masks_of fonts key.parts)) ≡ composite_value fonts key }
    ensures masks { (fonts : List FontValue) (glyphs : List ℕ) (parts : List Part) → All (IsValidPart glyphs) parts
        → All IsPlaceableMask (placed_masks parts (masks_of fonts parts)) }
{}
