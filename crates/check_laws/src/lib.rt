//! Laws of a tableau's checks, over the laws of the runs by Bland's rule. It has no code but these laws.

#![tactic(auto)]

pub mod laws;
