//! Texts of events: drawings, items with their spans, and tags.

use crate::telling::shown;
use ass_num::Mem;
use drawing_path::read_path;
use override_tags::{Item, ItemKind, read_text};
use std::alloc::Global;

/// The segments of a drawing.
pub fn drawing(alloc: Global, text: &str) -> Mem<String> {
    let path = read_path(alloc, text)?;
    shown(alloc, &path.segs.as_slice())
}

/// Adds what stands between semicolons.
fn add_part(parts: &mut String, part: &str) -> Mem<()> {
    if !parts.is_empty() {
        parts.push_str("; ")?;
    }
    Ok(parts.push_str(part)?)
}

/// Adds an item behind the bytes that it takes.
fn add_item(alloc: Global, item: &Item, parts: &mut String) -> Mem<()> {
    let part = shown(alloc, &(item.from, item.to, &item.kind))?;
    add_part(parts, part.as_str())
}

/// The items of a text, each behind the bytes that it takes.
pub fn items(alloc: Global, text: &str) -> Mem<String> {
    let mut parts = String::new(alloc);
    for item in &read_text(alloc, text)? {
        add_item(alloc, item, &mut parts)?;
    }
    Ok(parts)
}

/// Adds an item that is a tag.
fn add_tag(alloc: Global, item: &Item, parts: &mut String) -> Mem<()> {
    let ItemKind::Tag(tag) = &item.kind else {
        return Ok(());
    };
    let part = shown(alloc, tag)?;
    add_part(parts, part.as_str())
}

fn tags_told(alloc: Global, items: &[Item]) -> Mem<String> {
    let mut parts = String::new(alloc);
    for item in items {
        add_tag(alloc, item, &mut parts)?;
    }
    Ok(parts)
}

/// The tags of a block.
pub fn tags(alloc: Global, block: &str) -> Mem<String> {
    let text = format!(in alloc; "{{{block}}}")?;
    let items = read_text(alloc, text.as_str())?;
    let tags = tags_told(alloc, items.as_slice())?;
    if tags.is_empty() {
        return Ok(String::from_str(alloc, "skipped")?);
    }
    Ok(tags)
}
