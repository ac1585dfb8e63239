//! What holds of every program that follows the rules, by the definitions alone. It has no code but these laws.
#![tactic(auto)]

pub mod laws;
