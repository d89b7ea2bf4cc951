//! Lists of fetches that only clauses read.

ghost use Rattle.std.specs.Prelude.{◌≡◌, List, [], ◌∷◌, ◌++◌};
ghost use Rattle.std.specs.Borrow.{ftrue};
ghost use Rattle.ass_io.specs.Fetches.{LoggedFetch};

use crate::shelf::Fetch;
use std::marker::{Model, PhantomData};

/// A list of fetches. It takes no memory, and its methods do nothing at run time.
#[derive(Drop)]
pub struct FetchLog {
    marker: PhantomData<u8>,
    pub ghost fetches: { List LoggedFetch },
}

impl Model for FetchLog {
    ghost also_owns = { λ _. ftrue };
}

impl FetchLog {
    /// An empty list.
    pub fn new() -> FetchLog
        ensures { result.fetches ≡ [] }
    {
        FetchLog {
            marker: PhantomData,
        }
    }

    /// Adds a fetch at the end: a name, its answer, and the bytes that were read.
    pub fn note(&mut self, _name: &[u8], _answer: &Fetch, _bytes: &[u8])
        ensures { self.new.fetches ≡ self.old.fetches ++ (_name.now, _answer.now, _bytes.now) ∷ [] }
    {}
}
