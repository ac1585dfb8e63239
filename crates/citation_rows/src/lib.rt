//! Worked rows of what a fact may cite, over the definitions alone: each function is its contract.

#![tactic(auto)]

pub mod rows;
