//! Where an event that is laid out stands in the frame at an instant.

ghost use Rattle.std.specs.Prelude.{◌≡◌, ◌+◌, IfSome};
ghost use Rattle.ass_num.specs.Limits.{IsPointWithin, IsWithin, max_instant};
ghost use Rattle.ass_events.specs.Ranges.{IsEvent};
ghost use Rattle.frame_view.specs.FrameScales.{IsScales};
ghost use Rattle.outline_points.specs.Limits.{max_length};
ghost use Rattle.override_tags.specs.Views.{IsHeldPlace};
ghost use Rattle.tag_state.specs.Views.{elapsed_at};
ghost use Rattle.text_layout.specs.Anchors.{IsBlockSide, block_corner};
ghost use Rattle.text_layout.specs.Limits.{max_anchor, max_block};
ghost use Rattle.text_layout.specs.Settings.{IsSetting};
ghost use Rattle.event_draws.specs.Limits.{max_block_corner, max_down};
ghost use Rattle.event_draws.specs.Stages.{moved_down, origin_by};

use crate::lengths::sum;
use ass_events::Event;
use ass_num::{Fix, Point, Size};
use frame_view::Scales;
use override_tags::EventView;
use text_layout::{Laid, Setting, anchor, block_corner, frame_place, line_scales};

/// Where an event stands in the frame at an instant.
#[derive(Clone, Copy, Debug, PartialEq, Eq)]
pub struct Stage {
    pub scales: Scales,
    /// The columns and the rows of the frame.
    pub size: Size,
    /// The upper left corner of the event's block, in 1/64 pixel.
    pub corner: Point,
    /// The point about which it is turned.
    pub origin: Point,
    /// How many milliseconds of the event have passed.
    pub elapsed: i64,
    /// How far the event is faded out: 0 not at all, 255 wholly.
    pub fade: u8,
}

impl Stage {
    ghost use Rattle.event_draws.specs.Stages.{IsStage, stage_at};

    /// The event, laid out, at an instant in milliseconds, moved down by a shift in 1/64 pixel to stand clear of others.
    pub fn of(
        setting: &Setting<'_>,
        event: &Event,
        t: i64,
        view: &EventView,
        laid: &Laid,
        shift: Fix,
    ) -> Stage
        requires setting { IsSetting setting.now }
        requires event { IsEvent event.now }
        requires instant { IsWithin max_instant t }
        requires position { IfSome view.now.pos IsHeldPlace }
        requires origin { IfSome view.now.org IsHeldPlace }
        requires width { IsBlockSide laid.now.width }
        requires height { IsBlockSide laid.now.height }
        requires shift { IsWithin max_down shift }
        ensures value { result ≡ stage_at setting.now.script event.now t setting.now.frame view.now laid.now shift }
        ensures range { IsStage result }
    {
        let scales = line_scales(&setting.script.header(), &setting.frame, view);
        let at = anchor(setting.script, event, view, &scales);
        Stage {
            scales,
            size: setting.frame.size,
            corner: corner_of(at, view.align, laid, shift),
            origin: origin_of(&scales, view, moved_down(at, shift)),
            elapsed: elapsed_of(event, t),
            fade: view.fade,
        }
    }
}

/// How many milliseconds of an event have passed.
fn elapsed_of(event: &Event, t: i64) -> i64
    requires event { IsEvent event.now }
    requires instant { IsWithin max_instant t }
    ensures { result ≡ elapsed_at event.now t }
{
    t - event.start
}

/// The corner of a block at an anchor.
fn corner_at(at: Point, align: u8, laid: &Laid) -> Point
    requires anchor { IsPointWithin max_anchor at }
    requires width { IsBlockSide laid.now.width }
    requires height { IsBlockSide laid.now.height }
    ensures value { result ≡ block_corner at align laid.now.width laid.now.height }
    ensures within { IsPointWithin (max_anchor + max_block) result }
{
    block_corner(at, align, laid.width, laid.height)
}

/// The corner of a block at an anchor, moved down.
fn corner_of(at: Point, align: u8, laid: &Laid, shift: Fix) -> Point
    requires anchor { IsPointWithin max_anchor at }
    requires width { IsBlockSide laid.now.width }
    requires height { IsBlockSide laid.now.height }
    requires shift { IsWithin max_down shift }
    ensures value { result ≡ moved_down (block_corner at align laid.now.width laid.now.height) shift }
    ensures within { IsPointWithin max_block_corner result }
{
    moved_down(corner_at(at, align, laid), shift)
}

/// A point, moved down.
fn moved_down(p: Point, shift: Fix) -> Point
    requires point { IsPointWithin (max_anchor + max_block) p }
    requires shift { IsWithin max_down shift }
    ensures value { result ≡ moved_down p shift }
    ensures within { IsPointWithin max_block_corner result }
{
    Point {
        x: p.x,
        y: sum(p.y, shift),
    }
}

/// The point of the frame about which an event is turned: that of `\org`, which no shift moves, or else the anchor (Aegisub tag
/// reference, "\org").
fn origin_of(scales: &Scales, view: &EventView, anchor: Point) -> Point
    requires scales { IsScales scales.now }
    requires origin { IfSome view.now.org IsHeldPlace }
    requires anchor { IsPointWithin max_block_corner anchor }
    ensures value { result ≡ origin_by scales.now anchor view.now.org }
    ensures within { IsPointWithin max_length result }
{
    match view.org {
        Some(place) => frame_place(scales, place),
        None => anchor,
    }
}
