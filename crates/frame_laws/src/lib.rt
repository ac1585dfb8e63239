//! The frames of the traces of programs that follow the rules, by the definitions alone. It has no code but this law.
#![tactic(auto)]

pub mod laws;
