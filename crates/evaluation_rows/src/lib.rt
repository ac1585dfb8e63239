//! Worked rows of what is evaluated at an instant, in which order, and of the first value outside 128 bits. Each row is
//! a law, a function without a body whose contract is the row.
#![tactic(auto)]

mod order_rows;
mod past_rows;

pub use order_rows::{
    callee_row, conditions_row, import_row, late_callee_row, late_condact_row, late_part_row,
    mode_row, operands_row,
};
pub use past_rows::{
    callee_past_row, clocks_row, condact_row, growing_row, operators_row, two_values_row,
};
