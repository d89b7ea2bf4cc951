//! The one reading of a text.

ghost use Rattle.std.specs.Prelude.{◌≡◌, ◌+◌, ◌<◌, ◌^◌, ◌∷◌, ◌++◌, List, All, IfOk, OnOk};
ghost use Rattle.override_tags.specs.declared.item.Item.{Item};
ghost use Rattle.override_tags.specs.Laws.{IsAtCharacters};
ghost use Rattle.override_tags.specs.Ranges.{IsHeldItem};
ghost use Rattle.override_tags.specs.Fronts.{part_of, body_len};
ghost use Rattle.override_tags.specs.Readings.{kind_of, part_item, ArePartTags, IsTextReading};

use crate::block::add_block_tags;
use crate::item::{Item, ItemKind};
use crate::scan::{FrontKind, front_of};
use ass_num::Mem;
use std::alloc::Global;

/// The kind of the item that a part of a text is.
fn kind_of(kind: FrontKind<'_>) -> ItemKind
    ensures { result ≡ kind_of (part_of kind.entry) }
{
    match kind {
        FrontKind::Char(c) => ItemKind::Char(c),
        FrontKind::HardBreak => ItemKind::HardBreak,
        FrontKind::SoftBreak => ItemKind::SoftBreak,
        FrontKind::HardSpace => ItemKind::HardSpace,
        FrontKind::Block(_) => ItemKind::Block,
    }
}

/// Adds what takes these bytes of a text, and its tags if it is a block.
fn add_part(
    alloc: Global,
    items: &mut Vec<Item>,
    from: usize,
    to: usize,
    kind: FrontKind<'_>,
) -> Mem<()>
    requires { from + 1 + body_len (part_of kind) < 2 ^ 64 }
    ensures { OnOk result ((tags : List Item) × ArePartTags from (part_of kind.entry) tags
        × (items.new.items ≡ items.old.items ++ part_item from to (part_of kind.entry) ∷ tags)) }
{
    items.push(Item {
        from,
        to,
        kind: kind_of(kind),
    })?;
    match kind {
        FrontKind::Block(body) => add_block_tags(alloc, items, from + 1, body),
        _ => Ok(()),
    }
}

/// The items of a text, in order. A block is followed by its tags. The text can be cut where items begin and end.
pub fn read_text(alloc: Global, text: &str) -> Mem<Vec<Item>>
    ensures reading { IfOk result (λ items. IsTextReading text.now items.items) }
    ensures held { IfOk result (λ items. All IsHeldItem items.items) }
    ensures cuts { IfOk result (λ items. All (IsAtCharacters text.now) items.items) }
{
    let mut items = Vec::new(alloc);
    let mut rest = text;
    let mut may_close = true;
    let mut from = 0;
    while let Some(found) = front_of(rest, may_close) {
        let to = text.len() - found.rest.len();
        add_part(alloc, &mut items, from, to, found.kind)?;
        from = to;
        rest = found.rest;
        may_close = found.may_close;
    }
    Ok(items)
}
