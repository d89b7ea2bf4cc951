//! Files by name.

ghost use Rattle.std.specs.Prelude.{◌≡◌, ℕ, List, [], ◌∷◌, ◌++◌};
ghost use Rattle.ass_io.specs.Fetched.{Told, IsFetchDecided, IsFetchCounted, IsFetched};
ghost use Rattle.ass_io.specs.Fetches.{LoggedFetch};

use std::alloc::Global;

/// The most bytes that a file may have.
pub const MAX_FILE_BYTES: usize = 67_108_864;

/// How a fetch ended.
#[derive(Clone, Copy, Debug, PartialEq, Eq)]
pub enum Fetch {
    /// The bytes were read.
    Got,
    /// Nothing has this name.
    Missing,
    /// The name, or the device behind it, couldn't be read.
    Failed,
    /// The name holds more than `MAX_FILE_BYTES` bytes.
    TooLarge,
    /// Memory was wanting.
    OutOfMemory,
}

/// A shelf of files, by what it tells of each name, by a count of its faults, and by a list of all fetches, which real files
/// have too. A shelf that is to be taken at its word tells what it holds; one over real files tells nothing.
pub trait Shelf {
    ghost told: { Self → List ℕ → Told };

    ghost faults: { Self → ℕ };

    ghost log: { Self → List LoggedFetch };

    /// Reads what the name holds into an empty vector. After any answer but `Got` it is empty again.
    fn fetch(&mut self, alloc: Global, name: &str, into: &mut Vec<u8>) -> Fetch
        requires { into.old.items ≡ [] }

        // No fetch changes what is held.
        ensures kept { told self.new ≡ told self.old }

        // What each answer says of the name, and what is in the vector then.
        ensures fetched { IsFetched (told self.old name.now) result into.new.items }

        // What is held decides the answer, but for a fault and for lack of memory.
        ensures decided { IsFetchDecided (told self.old name.now) result }

        ensures counted { IsFetchCounted result (faults self.old) (faults self.new) }

        // The list has this fetch at its end.
        ensures logged { log self.new ≡ log self.old ++ (name.now, result, into.new.items) ∷ [] };
}
