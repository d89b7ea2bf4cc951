//! The font of a selftest.

ghost use Rattle.std.specs.Prelude.{◌≡◌, ◌<◌, ◌++◌, IfOk, OnOk};
ghost use Rattle.bdf_font.specs.Ranges.{IsFont};
ghost use Rattle.generated_script.specs.Grid.{blank, grid_font, letter, letter_rows, letters, row_byte};

use ass_num::{Items, Mem};
use bdf_font::{Font, FontGlyph, Pixels};
use std::alloc::Global;

/// A row of a letter.
fn row_byte(n: u32, row: u32) -> u8
    requires letter { n < 6 }
    requires row { row < 7 }
    ensures { result ≡ row_byte n row }
{
    8 * (37 * (n + 1) * (row + 1) % 32) as u8
}

/// The rows of a letter, from the top.
fn letter_rows(alloc: Global, n: u32) -> Mem<Items<u8>>
    requires { n < 6 }
    ensures { IfOk result (λ rows. rows ≡ letter_rows n) }
{
    let mut rows = Items::new(alloc);
    for row in 0..7 {
        rows.push(row_byte(n, row))?;
    }
    Ok(rows)
}

/// A letter, from 0 for `a`.
fn letter(alloc: Global, n: u32) -> Mem<FontGlyph>
    requires { n < 6 }
    ensures { IfOk result (λ glyph. glyph ≡ letter n) }
{
    let bits = letter_rows(alloc, n)?;
    let pixels = Pixels {
        w: 5,
        h: 7,
        x: 0,
        y: 0,
        bits,
    };
    Ok(FontGlyph::of_pixels(97 + i64::from(n), 6, pixels))
}

/// The space.
fn blank(alloc: Global) -> FontGlyph
    ensures { result ≡ blank }
{
    let pixels = Pixels {
        w: 0,
        h: 0,
        x: 0,
        y: 0,
        bits: Items::new(alloc),
    };
    FontGlyph::of_pixels(32, 6, pixels)
}

/// Adds the letters from `a` to `f`.
fn add_letters(alloc: Global, glyphs: &mut Items<FontGlyph>) -> Mem<()>
    ensures { OnOk result (glyphs.new ≡ glyphs.old ++ letters) }
{
    for i in 0..6 {
        glyphs.push(letter(alloc, i)?)?;
    }
    Ok(())
}

/// The glyphs: a space, and the letters.
fn glyphs(alloc: Global) -> Mem<Items<FontGlyph>>
    ensures { IfOk result (λ glyphs. glyphs ≡ grid_font.glyphs) }
{
    let mut glyphs = Items::new(alloc);
    glyphs.push(blank(alloc))?;
    add_letters(alloc, &mut glyphs)?;
    Ok(glyphs)
}

/// The font `grid`: a space and the letters from `a` to `f`, each of 5 by 7 pixels.
#[tactic(auto, using(crate::proofs::GridLemmas::grid_is))]
pub fn grid_font(alloc: Global) -> Mem<Font>
    ensures font { IfOk result (λ font. font ≡ grid_font) }
    ensures ranges { IsFont grid_font }
{
    let mut name = Vec::new(alloc);
    name.extend_from_slice(b"grid")?;
    Font::new(alloc, Items::from_vec(name), 7, 1, None, glyphs(alloc)?)
}
