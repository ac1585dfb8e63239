//! What the names of a declaration read at the same instant, without its callees unfolded, by the definitions alone. It
//! has no code but these laws.
#![tactic(auto)]

pub mod laws;
