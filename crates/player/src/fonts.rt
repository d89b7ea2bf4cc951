//! Sets of fonts with some fonts more.

ghost use Rattle.std.specs.Prelude.{◌≡◌, ◌++◌, IfOk};

use ass_num::{Items, Mem};
use bdf_font::{Font, FontSet};
use std::alloc::Global;

/// The same fonts, and some behind them. No font is copied: the sets share them.
pub(crate) fn with_fonts(alloc: Global, set: &FontSet, more: Items<Font>) -> Mem<FontSet>
    ensures { IfOk result (λ all. all.fonts ≡ set.now.fonts ++ more) }
{
    let mut fonts = Vec::new(alloc);
    for one in set.fonts.as_slice() {
        fonts.push(one.share()?)?;
    }
    fonts.append(&mut more.into_vec())?;
    Ok(FontSet {
        fonts: Items::from_vec(fonts),
    })
}
