//! Worked rows of which cuts are those of a row, over the definitions alone: each function is its contract, worked out
//! by hand.

#![tactic(auto)]

pub mod rows;
