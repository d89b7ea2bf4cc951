//! Laws of softening and of the blur.

ghost use Rattle.std.specs.Prelude.{◌≡◌, ℕ, ℤ, true};
ghost use Rattle.ass_num.specs.Masks.{MaskValue, is_mask};
ghost use Rattle.mask_blur.specs.Blur.{blurred, IsBlurred};
ghost use Rattle.mask_blur.specs.Softening.{softened, IsSoftened};

/// Pictures with the same values everywhere are softened and blurred alike.
pub fn same_pictures()
    ensures softened { (n : ℕ) (f g : ℤ → ℤ → ℕ) → ((x y : ℤ) → f x y ≡ g x y) → (x y : ℤ) → softened n f x y ≡ softened n g x y }
    ensures blurred { (r : ℕ) (f g : ℤ → ℤ → ℕ) → ((x y : ℤ) → f x y ≡ g x y) → (x y : ℤ) → blurred r f x y ≡ blurred r g x y }
{}

/// A mask has one softened and one blurred mask.
pub fn one_result()
    ensures softened { (n : ℕ) (m a b : MaskValue) → is_mask a ≡ true → is_mask b ≡ true → IsSoftened n m a → IsSoftened n m b → a ≡ b }
    ensures blurred { (r : ℕ) (m a b : MaskValue) → is_mask a ≡ true → is_mask b ≡ true → IsBlurred r m a → IsBlurred r m b → a ≡ b }
{}
