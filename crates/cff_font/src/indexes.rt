//! INDEXes: lists of items, each some bytes, behind a list of offsets.

ghost use Rattle.std.specs.Prelude.{◌≡◌, ◌<◌, ◌≤◌, ◌*◌, ◌^◌, IfSome};
ghost use Rattle.ass_num.specs.Limits.{max_file_bytes};
ghost use Rattle.cff_font.specs.Indexes.{offset_at, no_items, index_with, index_of_size, index_at, item_between, item_at};
ghost use Rattle.cff_font.specs.Ranges.{IsFileIndex, IsFileSpan};

use crate::tokens::Span;
use font_bytes::{u8_at, u16_at, u32_at};

/// A list of items in a file: how many there are, how many bytes an offset has, where the offsets begin, the byte that
/// they are counted from, and the byte behind the last item.
#[derive(Clone, Copy, Debug)]
pub struct Index {
    pub count: usize,
    pub size: usize,
    pub first: usize,
    pub base: usize,
    pub end: usize,
}

/// An offset of so many bytes.
fn offset_at(bytes: &[u8], size: usize, at: usize) -> usize
    requires { at < 2 ^ 39 }
    ensures value { result ≡ offset_at bytes.now size at }
    ensures most { result < 2 ^ 32 }
{
    match size {
        1 => usize::from(u8_at(bytes, at)),
        2 => usize::from(u16_at(bytes, at)),
        3 => usize::from(u8_at(bytes, at)) * 65_536 + usize::from(u16_at(bytes, at + 1)),
        _ => u32_at(bytes, at) as usize,
    }
}

/// How many bytes so many offsets have.
fn offsets_size(size: usize, count: usize) -> usize
    requires size { size ≤ 4 }
    requires count { count ≤ 65536 }
    ensures value { result ≡ size * count }
    ensures most { result ≤ 262144 }
{
    size * count
}

/// An INDEX without items.
pub fn no_items(end: usize) -> Index
    ensures value { result ≡ no_items end }
    ensures within { end ≤ max_file_bytes → IsFileIndex result }
{
    Index {
        count: 0,
        size: 1,
        first: end,
        base: end,
        end,
    }
}

/// The INDEX at a place, which has some items and offsets of this size.
fn index_with(bytes: &[u8], at: usize, count: usize, size: usize) -> Index
    requires at { at ≤ max_file_bytes }
    requires count { count ≤ 65535 }
    requires size { size ≤ 4 }
    ensures value { result ≡ index_with bytes.now at count size }
{
    let last = offset_at(bytes, size, at + 3 + offsets_size(size, count));
    let base = at + 2 + offsets_size(size, count + 1);
    Index {
        count,
        size,
        first: at + 3,
        base,
        end: base + last,
    }
}

/// The INDEX at a place of a table that ends at `stop`, if its offsets have from 1 to 4 bytes and it is whole.
fn index_of_size(bytes: &[u8], stop: usize, at: usize, count: usize, size: usize) -> Option<Index>
    requires stop { stop ≤ max_file_bytes }
    requires at { at ≤ max_file_bytes }
    requires count { count ≤ 65535 }
    ensures value { result ≡ index_of_size bytes.now stop at count size }
    ensures within { IfSome result IsFileIndex }
{
    if size < 1 || size > 4 {
        return None;
    }
    let index = index_with(bytes, at, count, size);
    if index.base < index.end && index.end <= stop {
        return Some(index);
    }
    None
}

/// The INDEX at a place of a table that ends at `stop`, if it is whole.
pub fn index_at(bytes: &[u8], stop: usize, at: usize) -> Option<Index>
    requires stop { stop ≤ max_file_bytes }
    requires at { at ≤ max_file_bytes }
    ensures value { result ≡ index_at bytes.now stop at }
    ensures within { IfSome result IsFileIndex }
{
    if stop < at + 2 {
        return None;
    }
    let count = usize::from(u16_at(bytes, at));
    if count == 0 {
        return Some(no_items(at + 2));
    }
    index_of_size(bytes, stop, at, count, usize::from(u8_at(bytes, at + 2)))
}

fn item_between(index: &Index, from: usize, to: usize) -> Option<Span>
    requires index { IsFileIndex index.now }
    requires from { from < 2 ^ 32 }
    requires to { to < 2 ^ 32 }
    ensures value { result ≡ item_between index.now from to }
    ensures within { IfSome result IsFileSpan }
{
    if 1 <= from && from <= to && index.base + to <= index.end {
        return Some(Span {
            from: index.base + from,
            to: index.base + to,
        });
    }
    None
}

/// The bytes of item k, if there is one and its offsets ascend.
pub fn item_at(bytes: &[u8], index: &Index, k: usize) -> Option<Span>
    requires { IsFileIndex index.now }
    ensures value { result ≡ item_at bytes.now index.now k }
    ensures within { IfSome result IsFileSpan }
{
    if k >= index.count {
        return None;
    }
    let from = offset_at(bytes, index.size, index.first + offsets_size(index.size, k));
    let to = offset_at(
        bytes,
        index.size,
        index.first + offsets_size(index.size, k + 1),
    );
    item_between(index, from, to)
}
