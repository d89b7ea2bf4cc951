//! Why images end early.

/// Why not all images were put.
#[derive(Clone, Copy, Debug, PartialEq, Eq)]
pub enum StillsFault {
    /// The sink failed.
    WriteFault,
    /// Memory ran out.
    OutOfMemory,
}
