//! The sight of each frame of a checked program finds what the translation finds.
#![tactic(auto)]

pub mod laws;
