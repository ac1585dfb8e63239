//! What is so of programs without integers. It has no code but these laws.

#![tactic(auto)]

pub mod laws;
pub mod rows;
