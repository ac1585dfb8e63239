//! What the systems of checked programs are like: mild, small, and with as many formulas as properties. It has no code
//! but these laws.
#![tactic(auto)]

pub mod laws;
