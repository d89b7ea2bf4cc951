//! Events at their own starts, laid out, and where they stand then.

ghost use Rattle.std.specs.Prelude.{◌≡◌, ◌+◌, ◌+ℤ◌, nat_le, pos, None, IfOk};
ghost use Rattle.std.specs.Int.{int_min};
ghost use Rattle.ass_num.specs.Limits.{IsPointWithin, IsWithin};
ghost use Rattle.ass_events.specs.Ranges.{IsEvent};
ghost use Rattle.ass_script.specs.Ranges.{IsScript};
ghost use Rattle.frame_view.specs.FrameScales.{IsScales};
ghost use Rattle.override_tags.specs.Views.{IsView};
ghost use Rattle.event_places.specs.Placement.{IsPlaceableStand, max_height};
ghost use Rattle.tag_state.specs.Views.{IsViewOf};
ghost use Rattle.text_layout.specs.Anchors.{IsBlockSide};
ghost use Rattle.text_layout.specs.LineScales.{line_scales};
ghost use Rattle.text_layout.specs.Limits.{max_anchor, max_block};
ghost use Rattle.text_layout.specs.Settings.{IsSetting};
ghost use Rattle.event_places.specs.PlacedEvents.{IsOwnLayout};
ghost use Rattle.event_places.specs.Stands.{box_at, corner_of, least_top_align, stand_of};

use crate::{Box2, Stand};
use ass_events::Event;
use ass_num::{Fix, Mem, Point};
use ass_script::Script;
use frame_view::Scales;
use override_tags::EventView;
use std::alloc::Global;
use text_layout::{Laid, Setting, anchor, block_corner, layout, line_scales};

/// The tallest that a box counts, in 1/64 pixel: 2^40.
const MAX_HEIGHT: Fix = 1_099_511_627_776;

/// An event as it looks at its own start, laid out.
#[derive(Debug, Drop)]
pub struct OwnLayout {
    pub view: EventView,
    pub laid: Laid,
}

/// The layout of an event that looks so at its own start.
pub(crate) fn own_layout(
    alloc: Global,
    setting: &Setting<'_>,
    event: &Event,
    view: EventView,
) -> Mem<OwnLayout>
    requires setting { IsSetting setting.now }
    requires event { IsEvent event.now }
    requires shows { IsViewOf setting.now.script event.now event.now.start view }
    requires view { IsView view }
    ensures own { IfOk result (IsOwnLayout setting.now.script setting.now.fonts setting.now.frame event.now) }
    ensures view { IfOk result (λ own. own.view ≡ view) }
    ensures width { IfOk result (λ own. IsBlockSide own.laid.width) }
    ensures height { IfOk result (λ own. IsBlockSide own.laid.height) }
{
    let laid = layout(alloc, setting, event, &view)?;
    Ok(OwnLayout { view, laid })
}

/// The edge of something of this length that begins here.
fn far_edge(near: Fix, length: Fix) -> Fix
    requires near { IsWithin (max_anchor + max_block) near }
    requires length { IsBlockSide length }
    ensures { result ≡ near +ℤ length }
{
    near + length
}

/// The height that a box counts with.
fn counted_height(height: Fix) -> Fix
    requires { IsBlockSide height }
    ensures value { result ≡ int_min height (pos max_height) }
    ensures side { IsBlockSide result }
{
    if MAX_HEIGHT < height {
        MAX_HEIGHT
    } else {
        height
    }
}

/// The box of a block whose upper left corner is here.
fn box_at(corner: Point, laid: &Laid) -> Box2
    requires corner { IsPointWithin (max_anchor + max_block) corner }
    requires width { IsBlockSide laid.now.width }
    requires height { IsBlockSide laid.now.height }
    ensures { result ≡ box_at corner laid.now }
{
    Box2 {
        left: corner.x,
        top: corner.y,
        right: far_edge(corner.x, laid.width),
        bottom: far_edge(corner.y, counted_height(laid.height)),
    }
}

/// The corner of the block of an event at its own start, by the scales of its lines.
fn corner_of(script: &Script, event: &Event, own: &OwnLayout, scales: &Scales) -> Point
    requires script { IsScript script.now }
    requires event { IsEvent event.now }
    requires view { IsView own.now.view }
    requires width { IsBlockSide own.now.laid.width }
    requires height { IsBlockSide own.now.laid.height }
    requires scales { IsScales scales.now }
    ensures value { result ≡ corner_of script.now event.now own.now.view own.now.laid scales.now }
    ensures within { IsPointWithin (max_anchor + max_block) result }
{
    let at = anchor(script, event, &own.view, scales);
    block_corner(at, own.view.align, own.laid.width, own.laid.height)
}

/// The first instant at which an event isn't shown any more.
fn end_of(event: &Event) -> i64
    requires { IsEvent event.now }
    ensures { result ≡ event.now.start +ℤ event.now.duration }
{
    event.start + event.duration
}

/// Whether an alignment gives way downwards.
fn gives_way_down(align: u8) -> bool
    ensures { result ≡ nat_le least_top_align align }
{
    align >= 7
}

/// The stand of an event without a point of its own, which is laid out so at its own start, by the scales of its lines.
fn stand_by(script: &Script, event: &Event, own: &OwnLayout, scales: &Scales) -> Stand
    requires script { IsScript script.now }
    requires event { IsEvent event.now }
    requires view { IsView own.now.view }
    requires pointless { own.now.view.pos ≡ None }
    requires width { IsBlockSide own.now.laid.width }
    requires height { IsBlockSide own.now.laid.height }
    requires scales { IsScales scales.now }
    ensures value { result ≡ stand_of script.now event.now own.now.view own.now.laid scales.now }
    ensures range { IsPlaceableStand result }
{
    Stand {
        start: event.start,
        end: end_of(event),
        place: box_at(corner_of(script, event, own, scales), &own.laid),
        down: gives_way_down(own.view.align),
    }
}

/// The stand of an event without a point of its own, which is laid out so at its own start.
pub(crate) fn stand_of(setting: &Setting<'_>, event: &Event, own: &OwnLayout) -> Stand
    requires setting { IsSetting setting.now }
    requires event { IsEvent event.now }
    requires view { IsView own.now.view }
    requires pointless { own.now.view.pos ≡ None }
    requires width { IsBlockSide own.now.laid.width }
    requires height { IsBlockSide own.now.laid.height }
    ensures value { result ≡ stand_of setting.now.script event.now own.now.view own.now.laid
        (line_scales setting.now.script.header setting.now.frame own.now.view) }
    ensures range { IsPlaceableStand result }
{
    let scales = line_scales(&setting.script.header(), &setting.frame, &own.view);
    stand_by(setting.script, event, own, &scales)
}
