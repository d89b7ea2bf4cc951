//! A list of lists that is kept flat: the items one after another, and where each list ends.

ghost use Rattle.std.specs.Prelude.{◌≡◌, ◌≤◌, ◌<◌, ◌-◌, List, [], ◌∷◌, ◌++◌, length, slice_index_or, take, drop, IfOk, OnOk, OnErr};
ghost use Rattle.std.specs.List.{flat_map};
ghost use Rattle.ass_num.specs.Pieces.{start};

use crate::memory::{Mem, OutOfMemory};
use std::alloc::Global;
use std::marker::Model;

/// A list of lists in two allocations, whatever the number of its lists. Contracts see the list of its lists.
#[derive(Clone, Debug, Drop)]
pub struct FlatLists<T> {
    items: Vec<T>,
    ends: Vec<usize>,
}

impl<T> Model for FlatLists<T> {
    ghost use Rattle.std.specs.Prelude.{List, length};
    ghost use Rattle.ass_num.specs.Pieces.{pieces, IsCut};

    ghost Value = { List (List T) };

    ghost view = { λ a. pieces 0 a.ends.items a.items.items };

    ghost invariant = { λ a. IsCut 0 a.ends.items (length a.items.items) };
}

impl<T> FlatLists<T> {
    /// No lists; it takes no memory.
    pub fn new(alloc: Global) -> FlatLists<T>
        ensures { result ≡ [] }
    {
        FlatLists {
            items: Vec::new(alloc),
            ends: Vec::new(alloc),
        }
    }

    /// No lists yet, and room for so many lists and so many items.
    pub fn with_capacity(alloc: Global, lists: usize, items: usize) -> Mem<FlatLists<T>>
    where
        T: Drop,
        ensures { IfOk result (λ flat. flat ≡ []) }
    {
        Ok(FlatLists {
            items: Vec::with_capacity(alloc, items)?,
            ends: Vec::with_capacity(alloc, lists)?,
        })
    }

    /// Gives back the room that no list takes.
    pub fn shrink_to_fit(&mut self)
        ensures { self.new ≡ self.old }
    {
        self.items.shrink_to_fit();
        self.ends.shrink_to_fit();
    }

    /// How many lists there are.
    pub fn len(&self) -> usize
        ensures { result ≡ length self.now }
    {
        self.ends.len()
    }

    /// The items of all lists, one list after another.
    pub fn all_items(&self) -> &[T]
        ensures { result.now ≡ flat_map (λ list. list) self.now }
    {
        self.items.as_slice()
    }

    /// The items of the list at `k`.
    pub fn get(&self, k: usize) -> &[T]
        requires { k < length self.now }
        ensures { result.now ≡ slice_index_or self.now k [] }
    {
        let ends = self.ends.as_slice();
        part(self.items.as_slice(), start(ends, k), start(ends, k + 1))
    }

    /// Puts a list at the end. For out of memory the lists stay as they are.
    pub fn push(&mut self, list: &[T]) -> Mem<()>
    where
        T: Copy,
        ensures ok { OnOk result (self.new ≡ self.old ++ list.now ∷ []) }
        ensures err { OnErr result (self.new ≡ self.old) }
    {
        let count = self.items.len();
        self.items.extend_from_slice(list)?;
        match self.ends.push(self.items.len()) {
            Ok(()) => Ok(()),
            Err(_) => {
                self.items.truncate(count);
                Err(OutOfMemory)
            }
        }
    }

    /// Keeps the first `count` lists.
    pub fn truncate(&mut self, count: usize)
    where
        T: Drop,
        requires { count ≤ length self.old }
        ensures { self.new ≡ take count self.old }
    {
        let end = start(self.ends.as_slice(), count);
        self.items.truncate(end);
        self.ends.truncate(count);
    }
}

/// Where list `k` begins.
fn start(ends: &[usize], k: usize) -> usize
    requires { k ≤ length ends.now }
    ensures { result ≡ start 0 ends.now k }
{
    if k == 0 {
        return 0;
    }
    ends[k - 1]
}

/// The items from a place up to but not with another.
fn part<T>(items: &[T], from: usize, to: usize) -> &[T]
    requires ascends { from ≤ to }
    requires within { to ≤ length items.now }
    ensures { result.now ≡ take (to - from) (drop from items.now) }
{
    &items[from..to]
}
