//! Where a solver's stops never come, by the definitions of a true stop alone. It has no code but these laws.

#![tactic(auto)]

pub mod laws;
pub mod rows;
