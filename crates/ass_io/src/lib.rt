//! What the program asks of the outside: a shelf of files, sinks of bytes, and threads.
#![tactic(auto)]

mod count;
mod failing_shelf;
mod failing_sink;
mod fetch_log;
mod file_shelf;
mod file_sink;
mod memory_shelf;
mod memory_sink;
mod named_memory;
mod named_sink;
mod piece_log;
mod piped_sink;
mod plan;
mod runtime;
mod shelf;
mod sink;
mod std_sink;

pub use failing_shelf::FailingShelf;
pub use failing_sink::FailingSink;
pub use fetch_log::FetchLog;
pub use file_shelf::FileShelf;
pub use file_sink::FileSink;
pub use memory_shelf::MemoryShelf;
pub use memory_sink::MemorySink;
pub use named_memory::NamedMemory;
pub use named_sink::{Making, NamedSink};
pub use piece_log::PieceLog;
pub use piped_sink::PipedSink;
pub use runtime::Rt;
pub use shelf::{Fetch, MAX_FILE_BYTES, Shelf};
pub use sink::{Put, Sink};
pub use std_sink::StdSink;
