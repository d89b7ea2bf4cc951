//! Laws of regions, of masks and of coverage.

ghost use Rattle.std.specs.Prelude.{◌≡◌, ℕ, ℤ, Bool, List, true};
ghost use Rattle.ass_num.specs.Coverage.{IsCover, IsSum, box_of, samples_of};
ghost use Rattle.ass_num.specs.Masks.{MaskValue, is_mask, value_at};
ghost use Rattle.ass_num.specs.Regions.{is_canonical, member};
ghost use Rattle.ass_num.specs.declared.region.Run.{Run};

/// Two regions in canonical form that have the same samples are equal.
pub fn one_region()
    ensures { (s t : ℤ) (xs ys : List (List Run)) → is_canonical s xs ≡ true → is_canonical t ys ≡ true → ((i j : ℤ) → member s xs i j ≡ member t ys i j)
        → (s ≡ t) × (xs ≡ ys) }
{}

/// Masks that have one box and the same values are one: so a set of samples has one mask under a phase, and moved masks have one sum.
pub fn one_mask()
    ensures mask { (a b : MaskValue) → is_mask a ≡ true → is_mask b ≡ true → box_of a ≡ box_of b → ((x y : ℤ) → value_at a x y ≡ value_at b x y) → a ≡ b }
    ensures cover { (has : ℤ → ℤ → Bool) (px py : ℕ) (a b : MaskValue) → is_mask a ≡ true → is_mask b ≡ true → IsCover has px py a → IsCover has px py b
        → a ≡ b }
    ensures sum { (parts : List (MaskValue × ℤ × ℤ)) (a b : MaskValue) → is_mask a ≡ true → is_mask b ≡ true → IsSum parts a → IsSum parts b → a ≡ b }
{}

/// Tests that agree at all samples count the same samples of each pixel, and have the same masks.
pub fn same_samples()
    ensures count { (p q : ℤ → ℤ → Bool) → ((i j : ℤ) → p i j ≡ q i j) → (px py : ℕ) (x y : ℤ) → samples_of p px py x y ≡ samples_of q px py x y }
    ensures mask { (p q : ℤ → ℤ → Bool) → ((i j : ℤ) → p i j ≡ q i j) → (px py : ℕ) (m : MaskValue) → IsCover p px py m → IsCover q px py m }
{}
