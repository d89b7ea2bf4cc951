//! What holds of all plans. The function does nothing: its contract is the law.

ghost use Rattle.std.specs.Prelude.{◌≡◌, List};
ghost use Rattle.bdf_font.specs.Fonts.{FontValue};
ghost use Rattle.mask_keys.specs.Pictures.{picture};
ghost use Rattle.frame_change.specs.Changes.{IsChange};
ghost use Rattle.frame_change.specs.declared.kinds.ChangeKind.TheVariants.{Same};

use ass_num::Size;
use mask_keys::Plan;

/// Plans that are the same have one picture of each size, whatever the fonts are, so nothing of it changes.
pub fn same_plans_have_one_picture()
    ensures { (fonts : List FontValue) (size : Size) (a b : Plan) → IsChange Same a b → picture fonts size a.draws ≡ picture fonts size b.draws }
{}
