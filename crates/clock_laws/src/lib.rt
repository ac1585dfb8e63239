//! The clocks of the programs that follow the rules, the order of their equations, and their runs, by the definitions
//! alone. It has no code but these laws.
#![tactic(auto)]

pub mod laws;
