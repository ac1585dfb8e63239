//! Reads and writes the text of traces.
#![tactic(auto)]

mod cursor;
mod fault;
pub mod laws;
mod reading;
mod words;
mod writing;

pub use fault::TraceFault;
pub use reading::read_trace;
pub use writing::write_trace;
