//! The evaluation of an instant of a program that follows the rules, and the rows of its runs, by the definitions
//! alone. It has no code but these laws.
#![tactic(auto)]

pub mod laws;
