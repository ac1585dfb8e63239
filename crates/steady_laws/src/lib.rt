//! The texts of checked programs are steady, and their constants are kept as they are. It has no code but these laws.
#![tactic(auto)]

pub mod laws;
