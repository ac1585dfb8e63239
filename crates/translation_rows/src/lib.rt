//! Worked rows of the translation. Each row is a law, a function without a body whose contract is the row.
#![tactic(auto)]

mod against_row;
mod place_rows;
mod rich_row;
mod typed_row;

pub use against_row::against_trace_row;
pub use place_rows::{inactive_trace_row, printed_place_row};
pub use rich_row::{rich_frame_row, rich_states_row, rich_system_row};
pub use typed_row::{asserting_distinct_row, asserting_typed_row, assuming_typed_row};
