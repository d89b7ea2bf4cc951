//! What an event shows at an instant.

ghost use Rattle.std.specs.Prelude.{◌≤◌, length, IfOk};
ghost use Rattle.ass_num.specs.Limits.{IsWithin, max_instant, max_text_bytes};
ghost use Rattle.ass_script.specs.Ranges.{IsScript};
ghost use Rattle.ass_events.specs.Ranges.{IsEvent};
ghost use Rattle.override_tags.specs.Views.{IsView};
ghost use Rattle.tag_state.specs.Views.{AreReadItems, IsViewOf};

use crate::choices::said_of;
use crate::pen::Pen;
use crate::walk::walk;
use ass_events::Event;
use ass_num::{Items, Mem};
use ass_script::Script;
use override_tags::{EventView, Item, read_text};
use std::alloc::Global;

/// The items of an event's text.
pub fn items_of(alloc: Global, event: &Event) -> Mem<Items<Item>>
    ensures { IfOk result (AreReadItems event.now.text) }
{
    let items = read_text(alloc, event.text.as_str())?;
    Ok(Items::from_vec(items))
}

/// What an event shows at an instant `t` in milliseconds, by the items of its text: these in order, each with the number of its state,
/// and what its tags say of the whole event (Aegisub, "ASS override tags").
pub fn view_of(
    alloc: Global,
    script: &Script,
    event: &Event,
    items: &[Item],
    t: i64,
) -> Mem<EventView>
    requires script { IsScript script.now }
    requires event { IsEvent event.now }
    requires few { length event.now.text ≤ max_text_bytes }
    requires items { AreReadItems event.now.text items.now }
    requires instant { IsWithin max_instant t }
    ensures view { IfOk result (IsViewOf script.now event.now t) }
    ensures range { IfOk result IsView }
{
    let elapsed = t - event.start;
    let mut pen = Pen::new(alloc, script, event.style.as_str())?;
    let sheet = walk(alloc, script, event, elapsed, &mut pen, items)?;
    let said = said_of(alloc, &script.header(), items, event.duration, elapsed)?;
    let style = script.style_named(event.style.as_str());
    Ok(EventView {
        names: pen.fonts.names,
        states: sheet.states,
        items: sheet.items,
        align: said.align.unwrap_or(style.alignment),
        wrap: said.wrap,
        pos: said.pos,
        org: said.org,
        fade: said.fade.unwrap_or(0),
        clip: said.clip,
    })
}

/// What an event shows at an instant `t` in milliseconds.
pub fn states_at(alloc: Global, script: &Script, event: &Event, t: i64) -> Mem<EventView>
    requires script { IsScript script.now }
    requires event { IsEvent event.now }
    requires few { length event.now.text ≤ max_text_bytes }
    requires instant { IsWithin max_instant t }
    ensures view { IfOk result (IsViewOf script.now event.now t) }
    ensures range { IfOk result IsView }
{
    let items = items_of(alloc, event)?;
    view_of(alloc, script, event, items.as_slice(), t)
}
