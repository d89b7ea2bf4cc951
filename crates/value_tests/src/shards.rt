//! The shards of some keys, which were worked out elsewhere.

use ass_num::{Items, Matrix, Mem, Path, Point, Seg};
use cache_kinds::{
    add_composite_numbers, add_mask_numbers, add_outline_numbers, add_region_numbers,
};
use flight_cache::ShardSum;
use mask_keys::{CompositeKey, MaskKey, OutlineKey, Part, RegionKey, Shared};
use std::alloc::Global;
use std::test::Fail;

fn point(x: i64, y: i64) -> Point {
    Point { x, y }
}

fn with_seg(segs: Items<Seg>, seg: Seg) -> Mem<Items<Seg>> {
    let mut segs = segs;
    segs.push(seg)?;
    Ok(segs)
}

/// A closed spline of one control point.
fn spline(alloc: Global) -> Mem<Seg> {
    let mut controls = Items::new(alloc);
    controls.push(point(3_000, -1_000))?;
    Ok(Seg::Spline(controls, true))
}

/// A segment of each kind but a spline.
fn segs(alloc: Global) -> Mem<Items<Seg>> {
    let segs = with_seg(Items::new(alloc), Seg::Move(point(0, -1_000)))?;
    let segs = with_seg(segs, Seg::Line(point(5, 6)))?;
    with_seg(segs, Seg::Cubic(point(1, 2), point(3, 4), point(-5, -6)))
}

/// A drawing with a segment of each kind.
fn drawing(alloc: Global) -> Mem<OutlineKey> {
    let spline = spline(alloc)?;
    let segs = with_seg(segs(alloc)?, spline)?;
    Ok(OutlineKey::Drawing {
        path: Shared::new(alloc, Path { segs })?,
        m: Matrix {
            ux: 65_536,
            uy: 65_536,
            italic: false,
            turn: 90_000,
        },
        shift: -64,
    })
}

fn glyph() -> OutlineKey {
    OutlineKey::Glyph {
        font: 1,
        glyph: 7,
        m: Matrix {
            ux: 65_536,
            uy: 65_536,
            italic: true,
            turn: -90_000,
        },
        bold: true,
        underline: false,
        strikeout: true,
    }
}

fn slanted_box() -> OutlineKey {
    OutlineKey::Box {
        w: -1,
        h: 64,
        turn: 90_000,
    }
}

fn part(outline: OutlineKey) -> Part {
    Part {
        mask: MaskKey {
            outline,
            rx: 32,
            ry: 16,
            px: 3,
            py: 15,
            edges: 1,
            blur: 2,
        },
        dx: -20_480,
        dy: 20_480,
    }
}

/// The shards of an outline, of its region with this border, and of its mask.
fn shards(outline: OutlineKey, rx: u32, ry: u32) -> (u32, u32, u32) {
    let mut outlines = ShardSum::new();
    add_outline_numbers(&outline, &mut outlines);
    let region = RegionKey { outline, rx, ry };
    let mut regions = ShardSum::new();
    add_region_numbers(&region, &mut regions);
    let mut masks = ShardSum::new();
    add_mask_numbers(&part(region.outline).mask, &mut masks);
    (outlines.shard(), regions.shard(), masks.shard())
}

/// Of the outline, the region and the mask of a drawing, a glyph and a box.
fn shards_of_outlines(alloc: Global) -> Mem<[(u32, u32, u32); 3]> {
    let drawn = shards(drawing(alloc)?, 0, 0);
    let glyph = shards(glyph(), 32, 16);
    Ok([drawn, glyph, shards(slanted_box(), 32, 16)])
}

fn with_part(parts: Items<Part>, part: Part) -> Mem<Items<Part>> {
    let mut parts = parts;
    parts.push(part)?;
    Ok(parts)
}

/// Of the composed mask of the glyph and the box.
fn composite_shard(alloc: Global) -> Mem<u32> {
    let parts = with_part(Items::new(alloc), part(glyph()))?;
    let parts = with_part(parts, part(slanted_box()))?;
    let mut sum = ShardSum::new();
    add_composite_numbers(&CompositeKey { parts }, &mut sum);
    Ok(sum.shard())
}

#[test]
fn shards_of_keys(rt: HostRuntime) -> Result<(), Fail> {
    let alloc = rt.alloc();
    let [drawing, glyph, slanted] = shards_of_outlines(alloc)?;
    assert_eq!(rt; drawing, (0, 0, 1));
    assert_eq!(rt; glyph, (3, 0, 0));
    assert_eq!(rt; slanted, (2, 3, 3));
    assert_eq!(rt; composite_shard(alloc)?, 3);
    Ok(())
}
