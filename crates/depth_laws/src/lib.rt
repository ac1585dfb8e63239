//! What the causes of bounded search and of induction say: that both were complete to the depth. It has no code but
//! these laws.

#![tactic(auto)]

pub mod laws;
