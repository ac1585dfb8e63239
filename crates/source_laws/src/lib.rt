//! What holds of the tree of every source, by the grammar and in the terms of the meaning. It has no code but these laws.
#![tactic(auto)]

pub mod laws;
