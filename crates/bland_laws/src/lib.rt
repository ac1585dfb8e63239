//! What holds of every run by Bland's rule, by the definitions alone. It has no code but these laws.
#![tactic(auto)]

pub mod laws;
