//! What holds of the states of a frame, by what names and numbers mean there.
#![tactic(auto)]

pub mod assertions;
pub mod called;
pub mod kept;
pub mod laws;
pub mod named;
pub mod occurrences;
