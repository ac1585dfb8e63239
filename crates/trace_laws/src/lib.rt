//! What traces of paths say where they are written and replayed. It has no code but these laws.
#![tactic(auto)]

pub mod laws;
