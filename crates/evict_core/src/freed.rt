//! Entries that were taken out and are freed later.

use crate::stored::Stored;
use std::alloc::Global;

/// What was taken out: the key with its number, and what was known of it.
#[derive(Drop)]
struct TakenOut<K, V> {
    key: Option<(K, u64)>,
    stored: Stored<V>,
}

/// Entries that were taken out, which are freed when this is: the first four of them, or all where it was made for many. What
/// finds no place is freed at once. No contract tells what lies here, since nobody gets it back.
#[derive(Drop)]
pub struct Freed<K, V> {
    first: Option<TakenOut<K, V>>,
    second: Option<TakenOut<K, V>>,
    third: Option<TakenOut<K, V>>,
    fourth: Option<TakenOut<K, V>>,
    count: u32,
    many: Option<Vec<TakenOut<K, V>>>,
}

impl<K, V> Freed<K, V> {
    /// For a few. It takes no memory.
    pub fn few() -> Freed<K, V> {
        Freed {
            first: None,
            second: None,
            third: None,
            fourth: None,
            count: 0,
            many: None,
        }
    }

    /// For many. It takes memory for each that it keeps, where there is some.
    pub fn many(alloc: Global) -> Freed<K, V> {
        Freed {
            first: None,
            second: None,
            third: None,
            fourth: None,
            count: 0,
            many: Some(Vec::new(alloc)),
        }
    }

    /// Keeps what was taken out, if it finds a place.
    pub(crate) fn keep(&mut self, key: Option<(K, u64)>, stored: Stored<V>)
    where
        K: Drop,
        V: Drop,
    {
        let taken = TakenOut { key, stored };
        if let Some(many) = &mut self.many {
            let _is_kept = many.push(taken).is_ok();
            return;
        }
        match self.count {
            0 => self.first = Some(taken),
            1 => self.second = Some(taken),
            2 => self.third = Some(taken),
            3 => self.fourth = Some(taken),
            _ => {}
        }
        self.count = self.count.saturating_add(1);
    }
}
