//! The tags of a block.

ghost use Rattle.std.specs.Prelude.{◌≡◌, ◌+◌, ◌^◌, ◌<◌, ◌++◌, List, length, IfOk, OnOk};
ghost use Rattle.override_tags.specs.declared.item.Item.{Item};
ghost use Rattle.override_tags.specs.Readings.{tag_items, AreTags, AreBlockTags};
ghost use Rattle.override_tags.specs.Tags.{BeginsTag, ReadsNamed, ReadsTag};

use crate::cut::{next_tag, split_at_tags};
use crate::item::{Item, ItemKind};
use crate::single::read_single;
use crate::tag::Tag;
use crate::transform::transform_tag;
use ass_num::Mem;
use std::alloc::Global;
use tag_arguments::{TagName, tag_name};

/// The tag of a name and the text behind it.
fn read_named(alloc: Global, name: TagName, rest: &str) -> Mem<Option<Tag>>
    ensures { IfOk result (λ tag. ReadsNamed name rest.now tag) }
{
    match name {
        TagName::Transform => transform_tag(alloc, rest),
        name => read_single(alloc, name, rest),
    }
}

/// The tag of a text behind a `\`, if it is one.
fn read_tag(alloc: Global, text: &str) -> Mem<Option<Tag>>
    ensures { IfOk result (λ tag. ReadsTag text.now tag) }
{
    match tag_name(text) {
        Some((name, rest)) => read_named(alloc, name, rest),
        None => Ok(None),
    }
}

/// Adds the item of a tag, if there is one.
fn push_tag(items: &mut Vec<Item>, from: usize, to: usize, tag: Option<Tag>) -> Mem<()>
    ensures { OnOk result (items.new.items ≡ items.old.items ++ tag_items from to tag) }
{
    match tag {
        Some(tag) => {
            items.push(Item {
                from,
                to,
                kind: ItemKind::Tag(tag),
            })?;
            Ok(())
        }
        None => Ok(()),
    }
}

/// Adds the tags of a text that begins at a place and is empty or begins with a `\`.
fn add_tags(alloc: Global, items: &mut Vec<Item>, from: usize, text: &str) -> Mem<()>
    requires begins { BeginsTag text.now }
    requires fits { from + length text.now < 2 ^ 64 }
    ensures { OnOk result ((tags : List Item) × AreTags from text.now tags
        × (items.new.items ≡ items.old.items ++ tags)) }
{
    let mut from = from;
    let mut rest = text;
    while let Some((text, others)) = next_tag(rest) {
        let to = from + 1 + text.len();
        let tag = read_tag(alloc, text)?;
        push_tag(items, from, to, tag)?;
        from = to;
        rest = others;
    }
    Ok(())
}

/// Adds the tags of a block by what stands between its braces, which begins at a place.
pub fn add_block_tags(alloc: Global, items: &mut Vec<Item>, from: usize, body: &str) -> Mem<()>
    requires { from + length body.now < 2 ^ 64 }
    ensures { OnOk result ((tags : List Item) × AreBlockTags from body.now tags
        × (items.new.items ≡ items.old.items ++ tags)) }
{
    let (before, tags) = split_at_tags(body);
    add_tags(alloc, items, from + before.len(), tags)
}
