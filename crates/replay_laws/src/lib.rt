//! What the replay of a declaration's slots says of the one frame of a trace. It has no code but these laws.
#![tactic(auto)]

pub mod laws;
