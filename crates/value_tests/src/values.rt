//! Values of keys, at the limits of keys among them, which were worked out elsewhere.

ghost use Rattle.std.specs.Prelude.{◌≡◌, ℕ, ℤ, pos, ◌+◌, ◌<◌, ◌≤◌, List, [], ◌∷◌, IfOk};
ghost use Rattle.std.specs.Arc.{arc_value};
ghost use Rattle.ass_num.specs.Limits.{IsMaskWithin, IsRegionWithin, IsWithin, max_mask_corner, max_mask_side, max_sample};
ghost use Rattle.ass_num.specs.Paths.{IsPath};
ghost use Rattle.mask_keys.specs.Keys.{HasMaskRanges, IsValidOutline, IsValidPart, max_part_offset};
ghost use Rattle.mask_keys.specs.Outlines.{IsFontSet, glyph_counts};

use ass_num::{Items, Mask, Matrix, Mem, Path, Region};
use bdf_font::{FontSet, read_font};
use drawing_path::read_path;
use made_values::{
    made_border, made_composite, made_mask, made_outline, mask_cost, mask_of_region,
};
use mask_keys::{MaskKey, OutlineKey, Part, Shared};
use std::alloc::Global;
use std::slice;
use std::sync::Arc;
use std::test::Fail;

/// A blank, and a dot of one pixel.
const DOT: &str =
    "STARTFONT 2.1\nFONT dot\nFONTBOUNDINGBOX 1 1 0 0\nSTARTPROPERTIES 2\nFONT_ASCENT 1\nFONT_DESCENT 0\n\
     ENDPROPERTIES\nSTARTCHAR space\nENCODING 32\nDWIDTH 1 0\nBBX 0 0 0 0\nBITMAP\nENDCHAR\n\
     STARTCHAR x\nENCODING 120\nDWIDTH 1 0\nBBX 1 1 0 0\nBITMAP\n80\nENDCHAR\nENDFONT\n";

/// A bitmap's pixel, and a script's unit, is a pixel.
const PLAIN: Matrix = Matrix {
    ux: 4_194_304,
    uy: 4_194_304,
    italic: false,
    turn: 0,
};

fn fonts(alloc: Global) -> Result<FontSet, Fail>
    ensures whole { IfOk result (λ set. IsFontSet set.fonts) }
    ensures glyphs { IfOk result (λ set. glyph_counts set.fonts ≡ 2 ∷ []) }
{
    if DOT.len() > 1_000 {
        return Err("the font is long".into());
    }
    let font = read_font(alloc, DOT.as_bytes())?;
    if font.glyph_count() != 2 {
        return Err("the font has other glyphs".into());
    }
    let mut fonts = Items::new(alloc);
    fonts.push(font)?;
    Ok(FontSet { fonts })
}

fn glyph(glyph: u32) -> OutlineKey
    requires { glyph < 2 }
    ensures { IsValidOutline (2 ∷ []) result }
{
    OutlineKey::Glyph {
        font: 0,
        glyph,
        m: PLAIN,
        bold: false,
        underline: false,
        strikeout: false,
    }
}

/// A box of a pixel's height, and no more than a pixel wide.
fn box_of(w: u8) -> OutlineKey
    ensures { IsValidOutline (2 ∷ []) result }
{
    OutlineKey::Box {
        w: i64::from(w),
        h: 64,
        turn: 0,
    }
}

fn drawing(alloc: Global, path: Path) -> Mem<OutlineKey>
    requires { IsPath path.segs }
    ensures { IfOk result (IsValidOutline (2 ∷ [])) }
{
    Ok(OutlineKey::Drawing {
        path: Shared::new(alloc, path)?,
        m: PLAIN,
        shift: 0,
    })
}

/// A blank, a dot, a box of a pixel, one without width, a drawing without segments, or one of a pixel.
fn outline(alloc: Global, shape: i64) -> Mem<OutlineKey>
    ensures { IfOk result (IsValidOutline (2 ∷ [])) }
{
    if shape == 0 {
        return Ok(glyph(0));
    }
    if shape == 1 {
        return Ok(glyph(1));
    }
    if shape == 2 {
        return Ok(box_of(64));
    }
    if shape == 3 {
        return Ok(box_of(0));
    }
    if shape == 4 {
        let segs = Items::new(alloc);
        return drawing(alloc, Path { segs });
    }
    drawing(alloc, read_path(alloc, "m 0 0 l 1 0 1 1 0 1")?)
}

/// A number of a table, which is below 256.
fn small(number: i64) -> u8 {
    if number < 0 || number > 255 {
        return 0;
    }
    number as u8
}

/// A radius of a table.
fn radius(number: i64) -> u32
    ensures { result ≤ 1600 }
{
    if number < 0 || number > 1_600 {
        return 0;
    }
    number as u32
}

fn key(outline: OutlineKey, rx: u32, ry: u32, edges: u8, blur: u8) -> MaskKey
    requires rx { rx ≤ 1600 }
    requires ry { ry ≤ 1600 }
    ensures outline { result.outline ≡ outline }
    ensures ranges { HasMaskRanges result }
{
    MaskKey {
        outline,
        rx,
        ry,
        px: 0,
        py: 0,
        edges: edges.min(127),
        blur: blur.min(100),
    }
}

fn mask_of(alloc: Global, fonts: &FontSet, key: &MaskKey) -> Mem<Mask>
    requires fonts { IsFontSet fonts.now.fonts }
    requires glyphs { glyph_counts fonts.now.fonts ≡ 2 ∷ [] }
    requires outline { IsValidOutline (2 ∷ []) key.now.outline }
    requires ranges { HasMaskRanges key.now }
    ensures { IfOk result (IsMaskWithin max_mask_corner max_mask_side) }
{
    let region = made_outline(alloc, fonts, &key.outline)?;
    made_mask(alloc, &region, key)
}

/// The sum of all bytes.
fn weight(mask: &Mask) -> i64 {
    let mut sum = 0i64;
    for byte in mask.bytes() {
        sum = sum.wrapping_add(i64::from(*byte));
    }
    sum
}

/// A shape, its radii, passes and blur, and the box and the weight of the mask, in each line.
const MASKS: &str = "1 0 0 0 0 0 -1 1 1 255
1 16 16 0 0 -1 -2 3 3 2003
0 16 16 1 1 0 0 0 0 0
2 0 0 1 0 -1 -1 3 3 256
2 0 0 0 1 -3 -3 7 7 249
2 32 32 0 2 -8 -8 17 17 5342
2 32 32 0 3 -11 -11 23 23 5353
3 8 8 0 0 0 0 0 0 0
4 16 16 0 0 0 0 0 0 0
5 0 5 0 0 0 -1 1 3 415
5 24 8 0 0 -2 -1 5 3 1805
2 1600 1600 0 0 -100 -100 201 201 8106807
2 0 0 127 0 -127 -127 255 255 206
2 1600 1600 127 100 -527 -527 1055 1055 8109544";

/// The ten numbers of a line; 0 where there are fewer.
fn numbers(line: &str) -> [i64; 10] {
    let mut numbers = [0i64; 10];
    let mut count = 0usize;
    for word in line.split(' ') {
        if count < 10 {
            numbers[count] = word.parse::<i64>().unwrap_or(0);
            count += 1;
        }
    }
    numbers
}

/// The key of a shape, its radii, passes and blur.
fn key_of(alloc: Global, numbers: [i64; 5]) -> Mem<MaskKey>
    ensures outline { IfOk result (λ key. IsValidOutline (2 ∷ []) key.outline) }
    ensures ranges { IfOk result HasMaskRanges }
{
    let [shape, rx, ry, edges, blur] = numbers;
    let outline = outline(alloc, shape)?;
    let (rx, ry) = (radius(rx), radius(ry));
    Ok(key(outline, rx, ry, small(edges), small(blur)))
}

/// A mask's box and its weight.
fn told(mask: &Mask) -> [i64; 5] {
    let (x, y) = (i64::from(mask.x()), i64::from(mask.y()));
    [x, y, i64::from(mask.w()), i64::from(mask.h()), weight(mask)]
}

/// Whether the mask of a line has its box and its weight.
fn holds(alloc: Global, fonts: &FontSet, line: &str) -> Mem<bool>
    requires fonts { IsFontSet fonts.now.fonts }
    requires glyphs { glyph_counts fonts.now.fonts ≡ 2 ∷ [] }
{
    let [shape, rx, ry, edges, blur, x, y, w, h, sum] = numbers(line);
    let key = key_of(alloc, [shape, rx, ry, edges, blur])?;
    let mask = mask_of(alloc, fonts, &key)?;
    Ok(told(&mask) == [x, y, w, h, sum])
}

/// How many lines hold.
fn right_lines(alloc: Global, fonts: &FontSet) -> Mem<usize>
    requires fonts { IsFontSet fonts.now.fonts }
    requires glyphs { glyph_counts fonts.now.fonts ≡ 2 ∷ [] }
{
    let mut count = 0usize;
    for line in MASKS.lines() {
        if holds(alloc, fonts, line)? {
            count = count.wrapping_add(1);
        }
    }
    Ok(count)
}

fn border_key(phase: u8) -> MaskKey
    requires { phase < 16 }
    ensures { HasMaskRanges result }
{
    MaskKey {
        outline: glyph(1),
        rx: 32,
        ry: 32,
        px: phase,
        py: 0,
        edges: 0,
        blur: 0,
    }
}

/// The weights of a dot's border at each phase, from one widened region.
fn weights(alloc: Global, border: &Region) -> Mem<i64>
    requires { IsRegionWithin max_sample border.now.top border.now.rows }
{
    let mut sum = 0i64;
    for phase in 0..16u8 {
        let mask = mask_of_region(alloc, border, &border_key(phase))?;
        sum = sum.wrapping_add(weight(&mask));
    }
    Ok(sum)
}

/// The same of a border of two pixels.
fn border_weights(alloc: Global, fonts: &FontSet) -> Mem<i64>
    requires fonts { IsFontSet fonts.now.fonts }
    requires glyphs { glyph_counts fonts.now.fonts ≡ 2 ∷ [] }
{
    let region = made_outline(alloc, fonts, &glyph(1))?;
    let border = made_border(alloc, &region, 32, 32)?;
    weights(alloc, &border)
}

/// The box, the weight and the cost of the composed mask of no parts.
fn none_told(alloc: Global) -> Mem<([i64; 5], u32)> {
    let none = made_composite(alloc, &[], &[])?;
    Ok((told(&none), mask_cost(&none)))
}

/// How many lines hold, and the weights of a border.
fn of_dot(alloc: Global) -> Result<(usize, i64), Fail> {
    let fonts = fonts(alloc)?;
    let lines = right_lines(alloc, &fonts)?;
    Ok((lines, border_weights(alloc, &fonts)?))
}

#[test]
fn masks_of_keys(rt: HostRuntime) -> Result<(), Fail> {
    let alloc = rt.alloc();
    assert_eq!(rt; of_dot(alloc)?, (14, 85_805));
    assert_eq!(rt; none_told(alloc)?, ([0; 5], 64));
    Ok(())
}

/// The part of a dot that is moved so far.
fn dot_part(dx: i32, dy: i32) -> Part
    ensures dx { result.dx ≡ dx }
    ensures dy { result.dy ≡ dy }
{
    Part {
        mask: key(glyph(1), 0, 0, 0, 0),
        dx,
        dy,
    }
}

/// The composed mask of one mask that is moved so far.
fn moved(alloc: Global, mask: &Arc<Mask>, dx: i32, dy: i32) -> Mem<Arc<Mask>>
    requires mask { IsMaskWithin max_mask_corner max_mask_side (arc_value mask.now) }
    requires dx { IsWithin max_part_offset dx }
    requires dy { IsWithin max_part_offset dy }
{
    let part = dot_part(dx, dy);
    let parts = slice::from_ref(&part);
    let masks = slice::from_ref(mask);
    made_composite(alloc, parts, masks)
}

/// A part that is moved one pixel further isn't valid.
fn proof_further_parts_are_not_valid()
    ensures across { (glyphs : List ℕ) (part : Part) → part.dx ≡ pos (max_part_offset + 1) → ¬ (IsValidPart glyphs part) }
    ensures down { (glyphs : List ℕ) (part : Part) → part.dy ≡ pos (max_part_offset + 1) → ¬ (IsValidPart glyphs part) }
{}

/// The mask of the dot.
fn dot(alloc: Global, fonts: &FontSet) -> Mem<Arc<Mask>>
    requires fonts { IsFontSet fonts.now.fonts }
    requires glyphs { glyph_counts fonts.now.fonts ≡ 2 ∷ [] }
    ensures { IfOk result (λ mask. IsMaskWithin max_mask_corner max_mask_side (arc_value mask)) }
{
    let mask = mask_of(alloc, fonts, &key(glyph(1), 0, 0, 0, 0))?;
    Ok(Arc::new(alloc, mask)?)
}

fn shared_dot(alloc: Global) -> Result<Arc<Mask>, Fail>
    ensures { IfOk result (λ mask. IsMaskWithin max_mask_corner max_mask_side (arc_value mask)) }
{
    let fonts = fonts(alloc)?;
    Ok(dot(alloc, &fonts)?)
}

/// The box and the weight of a mask that is moved so far, and how many share it then.
fn moved_told(alloc: Global, mask: &Arc<Mask>, dx: i32, dy: i32) -> Mem<([i64; 5], usize)>
    requires mask { IsMaskWithin max_mask_corner max_mask_side (arc_value mask.now) }
    requires dx { IsWithin max_part_offset dx }
    requires dy { IsWithin max_part_offset dy }
{
    let moved = moved(alloc, mask, dx, dy)?;
    Ok((told(&moved), Arc::strong_count(mask)))
}

/// A dot where it is, and moved to the limit. A single mask that isn't moved is shared.
fn rows(alloc: Global) -> Result<[([i64; 5], usize); 3], Fail> {
    let dot = shared_dot(alloc)?;
    proof_further_parts_are_not_valid();
    let below = moved_told(alloc, &dot, -20_480, 20_480)?;
    let above = moved_told(alloc, &dot, 20_480, -20_480)?;
    Ok([below, above, moved_told(alloc, &dot, 0, 0)?])
}

#[test]
fn parts_are_moved_to_the_limit(rt: HostRuntime) -> Result<(), Fail> {
    let [below, above, shared] = rows(rt.alloc())?;
    assert_eq!(rt; below, ([-20_480, 20_479, 1, 1, 255], 1));
    assert_eq!(rt; above, ([20_480, -20_481, 1, 1, 255], 1));
    assert_eq!(rt; shared, ([0, -1, 1, 1, 255], 2));
    Ok(())
}
