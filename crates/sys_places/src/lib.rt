//! Where the variables of a frame stand among all variables, by the definitions alone. It has no code but these laws.
#![tactic(auto)]

pub mod laws;
