//! The bytes of a file, which its faces share.

ghost use Rattle.std.specs.Prelude.{◌≡◌, IfOk};

use ass_num::{Items, Mem};
use std::alloc::Global;
use std::marker::Model;
use std::sync::Arc;

/// The bytes of a file. They are shared: another owner costs no more than a count.
#[derive(Debug, Drop)]
pub struct FileBytes {
    bytes: Arc<Items<u8>>,
}

impl Model for FileBytes {
    ghost use Rattle.std.specs.Prelude.{List, ℕ};
    ghost use Rattle.std.specs.Arc.{arc_value};

    ghost Value = { List ℕ };

    ghost view = { λ f. arc_value f.bytes };

    ghost invariant = { λ f. Unit {0} };
}

impl FileBytes {
    /// The bytes of a file, with one owner.
    pub fn new(alloc: Global, bytes: Items<u8>) -> Mem<FileBytes>
        ensures { IfOk result (λ file. file ≡ bytes) }
    {
        Ok(FileBytes {
            bytes: Arc::new(alloc, bytes)?,
        })
    }

    /// The bytes for another owner; none is copied.
    pub fn share(&self) -> Mem<FileBytes>
        ensures { IfOk result (λ file. file ≡ self.now) }
    {
        Ok(FileBytes {
            bytes: Arc::try_clone(&self.bytes)?,
        })
    }

    /// The bytes.
    pub fn as_slice(&self) -> &[u8]
        ensures { result.now ≡ self.now }
    {
        self.bytes.as_slice()
    }
}
