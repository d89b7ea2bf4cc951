//! Lists of byte strings that only clauses read.

ghost use Rattle.std.specs.Prelude.{◌≡◌, ℕ, List, [], ◌∷◌, ◌++◌};
ghost use Rattle.std.specs.Borrow.{ftrue};

use std::marker::{Model, PhantomData};

/// A list of byte strings. It takes no memory, and its methods do nothing at run time.
#[derive(Drop)]
pub struct PieceLog {
    marker: PhantomData<u8>,
    pub ghost pieces: { List (List ℕ) },
}

impl Model for PieceLog {
    ghost also_owns = { λ _. ftrue };
}

impl PieceLog {
    /// An empty list.
    pub fn new() -> PieceLog
        ensures { result.pieces ≡ [] }
    {
        PieceLog {
            marker: PhantomData,
        }
    }

    /// Adds a byte string at the end.
    pub fn note(&mut self, _piece: &[u8])
        ensures { self.new.pieces ≡ self.old.pieces ++ _piece.now ∷ [] }
    {}
}
