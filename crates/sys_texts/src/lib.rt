//! The terms of expressions, by what the names and numbers of a frame mean.
#![tactic(auto)]

pub mod folding;
pub mod laws;
pub mod modes;
pub mod outputs;
pub mod presence;
pub mod sight;
pub mod sorts;
pub mod texts;
