//! Glyphs that draw nothing at sight.

ghost use Rattle.std.specs.Prelude.{◌≡◌, ◌-◌};
ghost use Rattle.cff_font.specs.Glyphs.{is_blank_at_sight, is_blank_from};
ghost use Rattle.cff_font.specs.Ranges.{IsCffFont, IsFileSpan};

use crate::indexes::item_at;
use crate::machine::charstring_token;
use crate::read::CffFont;
use crate::tokens::{Span, Token};
use font_bytes::u8_at;

/// The operator that ends a glyph.
const END: u16 = 14;

/// Whether the first operator of a charstring ends the glyph, or there is none.
fn is_blank_body(bytes: &[u8], body: Span) -> bool
    requires { IsFileSpan body }
    ensures { result ≡ is_blank_from bytes.now body.to (body.to - body.from) body.from }
{
    let mut at = body.from;
    for _k in body.from..body.to {
        if body.to <= at {
            return true;
        }
        match charstring_token(bytes, body.to, at, u8_at(bytes, at)) {
            Some(Token::Number(_, behind)) => at = behind,
            Some(Token::Operator(code, _)) => return code == END,
            None => return true,
        }
    }
    true
}

/// Whether the charstring of a glyph draws nothing at sight: its first operator ends the glyph, or it has none. It takes
/// no memory.
pub fn cff_is_blank(bytes: &[u8], font: &CffFont, g: u16) -> bool
    requires { IsCffFont font.now }
    ensures { result ≡ is_blank_at_sight bytes.now font.now g }
{
    match item_at(bytes, &font.glyphs, usize::from(g)) {
        Some(body) => is_blank_body(bytes, body),
        None => true,
    }
}
