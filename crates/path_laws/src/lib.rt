//! The translation of the programs that follow the rules, by the definitions alone. It has no code but these laws.
#![tactic(auto)]

pub mod laws;
