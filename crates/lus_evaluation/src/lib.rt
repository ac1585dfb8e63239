//! In which order an instant of a declaration is evaluated, and which value is the first that is outside 128 bits: by
//! definitions alone. It has no code but these laws.
#![tactic(auto)]

pub mod laws;
