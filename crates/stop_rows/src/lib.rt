//! Worked rows of when a stop is true of a query, over the definitions alone: each function is its
//! contract, worked out by hand.

#![tactic(auto)]

pub mod conflicts;
pub mod numbers;
