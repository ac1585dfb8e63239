//! What the program reads and writes: shelves of named bytes, and sinks.
#![tactic(auto)]

mod file_shelf;
mod held;
mod memory_shelf;
mod memory_sink;
mod never;
mod schedule;
mod shelf;
mod sink;
mod std_sink;

pub use file_shelf::{FileShelf, read_within};
pub use memory_shelf::MemoryShelf;
pub use memory_sink::MemorySink;
pub use never::{NeverShelf, NeverSink};
pub use shelf::{FetchFault, KeepFault, Shelf};
pub use sink::{PutFault, Sink};
pub use std_sink::{StdSink, write_whole};
