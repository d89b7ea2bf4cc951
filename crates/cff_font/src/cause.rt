//! Why a table of PostScript outlines isn't read.

/// What is wrong with a table.
#[derive(Clone, Copy, Debug, PartialEq, Eq)]
pub enum CffCause {
    /// It has fewer than 4 bytes.
    Short,
    /// Its version isn't 1.
    Version,
    /// An INDEX isn't whole.
    BadIndex,
    /// The Top DICT is missing, or lacks what is needed.
    BadDict,
}

/// What is wrong with a table, and at which byte of the file.
#[derive(Clone, Copy, Debug, PartialEq, Eq)]
pub struct CffRefusal {
    pub place: usize,
    pub cause: CffCause,
}
