//! The sources of the slots of a program that follows the rules, and the rows of its traces, by the definitions alone.
//! It has no code but these laws.
#![tactic(auto)]

pub mod laws;
