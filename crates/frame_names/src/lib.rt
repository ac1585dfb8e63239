//! The names of all frames of a declaration, by the ways of calls that lead to them, with the numbers of their slots.
#![tactic(auto)]

mod names;
mod tables;
mod walk;

pub use names::{FrameNames, frame_names};
