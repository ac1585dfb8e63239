//! The system of any declaration of a checked program.
#![tactic(auto)]

mod contracts;
mod held;
mod lists;
mod own;
mod properties;
mod shapes;
mod streams;
mod systems;
mod walk;

pub use systems::{missing_at, place_named, system};
