//! Margins, the width for wrapping, and where the block stands in the frame.

ghost use Rattle.std.specs.Prelude.{◌≡◌, ◌≤◌, ℕ, ◌*◌, pos, ◌+ℤ◌, ◌-ℤ◌, ◌*ℤ◌, ◌≤ℤ◌, All, IfSome};
ghost use Rattle.ass_num.specs.Limits.{IsPointWithin, IsWithin, max_frame_side};
ghost use Rattle.ass_script.specs.Ranges.{IsScript, IsStyle};
ghost use Rattle.ass_events.specs.Ranges.{IsEvent};
ghost use Rattle.frame_view.specs.FrameScales.{IsScales};
ghost use Rattle.override_tags.specs.Views.{IsHeldPlace};
ghost use Rattle.text_layout.specs.Limits.{max_anchor, max_block_place, max_framed, max_ground_corner, max_ground_place, max_script_length};
ghost use Rattle.text_layout.specs.Scales.{pixel};
ghost use Rattle.text_layout.specs.Anchors.{IsBlockSide, IsMargins, across, anchor, anchor_by, block_corner, down, edge_across, edge_at, edge_within};
ghost use Rattle.text_layout.specs.Anchors.{margin_anchor, event_margin_or, margins_of, edge_down, on_ground, script_place, whole_pixels, wrapping_width};

use crate::scales::framed;
use ass_events::Event;
use ass_num::{Fix, Milli, Point};
use ass_script::{Script, Style};
use frame_view::Scales;
use override_tags::EventView;

/// The margins of an event in script pixels.
#[derive(Clone, Copy, Debug, PartialEq, Eq)]
pub struct Margins {
    pub left: i32,
    pub right: i32,
    pub vertical: i32,
}

/// Where something stands between two edges.
#[derive(Clone, Copy, Debug, PartialEq, Eq)]
pub(crate) enum AnchorSide {
    /// At the left or the upper edge.
    Near,
    Middle,
    /// At the right or the lower edge.
    Far,
}

/// A margin of the event, or where it is 0 that of its style (ASS specification, "MarginL").
fn margin_or(event: i32, style: i32) -> i32
    ensures { result ≡ event_margin_or event style }
{
    if event == 0 { style } else { event }
}

/// The margins of an event.
pub fn margins_of(script: &Script, event: &Event) -> Margins
    requires styles { All IsStyle script.now.styles }
    requires event { IsEvent event.now }
    ensures value { result ≡ margins_of script.now event.now }
    ensures range { IsMargins result }
{
    let style = script.style_named(event.style.as_str());
    Margins {
        left: margin_or(event.margin_l, style.margin_l),
        right: margin_or(event.margin_r, style.margin_r),
        vertical: margin_or(event.margin_v, style.margin_v),
    }
}

/// A length of the script across the frame.
fn across(scales: &Scales, length: Milli) -> Fix
    requires scales { IsScales scales.now }
    requires length { IsWithin max_script_length length }
    ensures value { result ≡ across scales.now length }
    ensures within { IsWithin max_framed result }
{
    framed(length, scales.canvas.x.pixels, scales.canvas.x.units)
}

/// A length of the script down it.
fn down(scales: &Scales, length: Milli) -> Fix
    requires scales { IsScales scales.now }
    requires length { IsWithin max_script_length length }
    ensures value { result ≡ down scales.now length }
    ensures within { IsWithin max_framed result }
{
    framed(length, scales.canvas.y.pixels, scales.canvas.y.units)
}

/// What the margins leave of the canvas, across the frame.
fn inner_width(margins: &Margins, scales: &Scales) -> Fix
    requires margins { IsMargins margins.now }
    requires scales { IsScales scales.now }
    ensures value { result ≡ across scales.now (whole_pixels ((pos scales.now.canvas.x.units -ℤ margins.now.left) -ℤ margins.now.right)) }
    ensures within { IsWithin max_framed result }
{
    let units = i64::from(scales.canvas.x.units);
    let inner = units - i64::from(margins.left) - i64::from(margins.right);
    across(scales, 1_000 * inner)
}

/// The columns of the ground that the canvas doesn't fill, as a length.
fn spare_width(scales: &Scales) -> Fix
    requires { IsScales scales.now }
    ensures value { result ≡ pos (pixel * scales.now.spare) }
    ensures within { IsWithin max_ground_corner result }
{
    64 * i64::from(scales.spare)
}

/// The width that lines are wrapped at.
pub fn wrapping_width(margins: &Margins, scales: &Scales) -> Fix
    requires margins { IsMargins margins.now }
    requires scales { IsScales scales.now }
    ensures { result ≡ wrapping_width margins.now scales.now }
{
    sum(inner_width(margins, scales), spare_width(scales)).max(0)
}

/// Where an alignment puts a block across the frame (Aegisub tag reference, "\an").
pub(crate) fn column_of(align: u8) -> AnchorSide
    ensures { result ≡ edge_across align }
{
    match align % 3 {
        1 => AnchorSide::Near,
        2 => AnchorSide::Middle,
        _ => AnchorSide::Far,
    }
}

/// Where it puts a block down the frame.
fn row_of(align: u8) -> AnchorSide
    ensures { result ≡ edge_down align }
{
    if align >= 7 {
        AnchorSide::Near
    } else if align >= 4 {
        AnchorSide::Middle
    } else {
        AnchorSide::Far
    }
}

/// The place of an edge between two others.
fn edge_at(edge: AnchorSide, near: Fix, far: Fix) -> Fix
    requires near { IsWithin max_block_place near }
    requires far { IsWithin max_block_place far }
    ensures value { result ≡ edge_at edge near far }
    ensures within { (limit : ℕ) → IsWithin limit near → IsWithin limit far → IsWithin limit result }
{
    match edge {
        AnchorSide::Near => near,
        AnchorSide::Middle => (near + far).div_euclid(2),
        AnchorSide::Far => far,
    }
}

/// How far the edge of something of this length lies from its near end.
pub(crate) fn edge_within(edge: AnchorSide, length: Fix) -> Fix
    requires from_zero { pos 0 ≤ℤ length }
    requires most { length ≤ℤ pos max_block_place }
    ensures value { result ≡ edge_within edge length }
    ensures least { pos 0 ≤ℤ result }
    ensures most { result ≤ℤ length }
{
    edge_at(edge, 0, length)
}

/// The anchor of the block without `\pos` and `\move`, by the margins, from the ground's corner on.
fn margin_anchor(margins: &Margins, align: u8, scales: &Scales) -> Point
    requires margins { IsMargins margins.now }
    requires scales { IsScales scales.now }
    ensures value { result ≡ margin_anchor margins.now align scales.now }
    ensures within { IsPointWithin max_ground_place result }
{
    let left = across(scales, 1_000 * i64::from(margins.left));
    let right = across(scales, 1_000 * i64::from(margins.right));
    let vertical = down(scales, 1_000 * i64::from(margins.vertical));
    let width = 64 * i64::from(scales.ground_rect.w);
    let height = 64 * i64::from(scales.ground_rect.h);
    Point {
        x: edge_at(column_of(align), left, width - right),
        y: edge_at(row_of(align), vertical, height - vertical),
    }
}

/// A place of the script, from the ground's corner on.
fn script_place(scales: &Scales, place: (Milli, Milli)) -> Point
    requires scales { IsScales scales.now }
    requires place { IsHeldPlace place }
    ensures value { result ≡ script_place scales.now place }
    ensures within { IsPointWithin max_ground_place result }
{
    Point {
        x: across(scales, place.0),
        y: down(scales, place.1),
    }
}

/// So many pixels of the frame as a length.
fn pixels_long(pixels: i32) -> Fix
    requires { IsWithin max_frame_side pixels }
    ensures value { result ≡ pos pixel *ℤ pixels }
    ensures within { IsWithin max_ground_corner result }
{
    64 * i64::from(pixels)
}

/// A length and another.
fn sum(a: Fix, b: Fix) -> Fix
    requires { IsWithin max_anchor (a +ℤ b) }
    ensures value { result ≡ a +ℤ b }
    ensures within { IsWithin max_anchor result }
{
    a + b
}

/// The place in the frame of a point that counts from the ground's corner.
fn on_ground(scales: &Scales, p: Point) -> Point
    requires scales { IsScales scales.now }
    requires point { IsPointWithin max_ground_place p }
    ensures value { result ≡ on_ground scales.now p }
    ensures within { IsPointWithin max_anchor result }
{
    Point {
        x: sum(pixels_long(scales.ground_rect.left), p.x),
        y: sum(pixels_long(scales.ground_rect.top), p.y),
    }
}

/// A place of the script in the frame.
pub fn frame_place(scales: &Scales, place: (Milli, Milli)) -> Point
    requires scales { IsScales scales.now }
    requires place { IsHeldPlace place }
    ensures value { result ≡ on_ground scales.now (script_place scales.now place) }
    ensures within { IsPointWithin max_anchor result }
{
    on_ground(scales, script_place(scales, place))
}

/// The anchor of the block of an event, from the ground's corner on.
fn anchor_by(script: &Script, event: &Event, view: &EventView, scales: &Scales) -> Point
    requires script { IsScript script.now }
    requires event { IsEvent event.now }
    requires position { IfSome view.now.pos IsHeldPlace }
    requires scales { IsScales scales.now }
    ensures value { result ≡ anchor_by (margins_of script.now event.now) view.now.align scales.now view.now.pos }
    ensures within { IsPointWithin max_ground_place result }
{
    match view.pos {
        Some(place) => script_place(scales, place),
        None => margin_anchor(&margins_of(script, event), view.align, scales),
    }
}

/// The anchor of the block of an event, which is the origin of its turning too: the point of `\pos` or `\move`, or else a point by the
/// margins (Aegisub tag reference, "\pos", "\an").
pub fn anchor(script: &Script, event: &Event, view: &EventView, scales: &Scales) -> Point
    requires script { IsScript script.now }
    requires event { IsEvent event.now }
    requires position { IfSome view.now.pos IsHeldPlace }
    requires scales { IsScales scales.now }
    ensures value { result ≡ anchor script.now event.now view.now scales.now }
    ensures within { IsPointWithin max_anchor result }
{
    on_ground(scales, anchor_by(script, event, view, scales))
}

/// The upper left corner of a block of this width and height at an anchor.
pub fn block_corner(anchor: Point, align: u8, width: Fix, height: Fix) -> Point
    requires anchor { IsPointWithin max_anchor anchor }
    requires width { IsBlockSide width }
    requires height { IsBlockSide height }
    ensures { result ≡ block_corner anchor align width height }
{
    Point {
        x: anchor.x - edge_within(column_of(align), width),
        y: anchor.y - edge_within(row_of(align), height),
    }
}
