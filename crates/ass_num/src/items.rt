//! An owned list, which contracts see as the list of its items.

ghost use Rattle.std.specs.Prelude.{◌≡◌, ◌↔◌, List, [], ◌∷◌, ◌++◌, length, IsTrue, IfOk, OnOk, OnErr};

use crate::memory::Mem;
use std::alloc::Global;
use std::marker::Model;

/// An owned list. It is a `Vec` that contracts see as the list of its items, and no more.
#[derive(Clone, Debug, Drop)]
pub struct Items<T> {
    items: Vec<T>,
}

impl<T> Model for Items<T> {
    ghost use Rattle.std.specs.Prelude.{List};

    ghost Value = { List T };

    ghost view = { λ l. l.items.items };
}

impl<T> Items<T> {
    /// An empty list, which takes no memory.
    pub fn new(alloc: Global) -> Items<T>
        ensures { result ≡ [] }
    {
        Items {
            items: Vec::new(alloc),
        }
    }

    /// An empty list with room for so many items.
    pub fn with_capacity(alloc: Global, count: usize) -> Mem<Items<T>>
        ensures { IfOk result (λ list. list ≡ []) }
    {
        Ok(Items {
            items: Vec::with_capacity(alloc, count)?,
        })
    }

    /// Gives back the room that no item takes.
    pub fn shrink_to_fit(&mut self)
        ensures { self.new ≡ self.old }
    {
        self.items.shrink_to_fit();
    }

    /// The list of a vector's items; nothing is copied.
    pub fn from_vec(items: Vec<T>) -> Items<T>
        ensures { result ≡ items.items }
    {
        Items { items }
    }

    /// The vector of the items; nothing is copied.
    pub fn into_vec(self) -> Vec<T>
        ensures { result.items ≡ self }
    {
        self.items
    }

    /// How many items there are.
    pub fn len(&self) -> usize
        ensures { result ≡ length self.now }
    {
        self.items.len()
    }

    /// Whether there is no item.
    pub fn is_empty(&self) -> bool
        ensures { IsTrue result ↔ (self.now ≡ []) }
    {
        self.items.is_empty()
    }

    /// All items, in order.
    pub fn as_slice(&self) -> &[T]
        ensures { result.now ≡ self.now }
    {
        self.items.as_slice()
    }
}

impl<T: Drop> Items<T> {
    /// Puts an item at the end. For out of memory the item is dropped, and the list stays.
    pub fn push(&mut self, item: T) -> Mem<()>
        ensures ok { OnOk result (self.new ≡ self.old ++ item ∷ []) }
        ensures err { OnErr result (self.new ≡ self.old) }
    {
        self.items.push(item)?;
        Ok(())
    }
}
