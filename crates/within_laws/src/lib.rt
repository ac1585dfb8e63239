//! Where no operation of a resolution is outside 128 bits, what is evaluated is within. It has no code but laws.
#![tactic(auto)]

pub mod laws;
