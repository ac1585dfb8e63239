//! The rule of clocks.
#![tactic(auto)]

mod cells;
mod clocked;
mod equation;
mod found;
mod items;
mod notes;
mod occurrence;
mod part;
mod program;
mod sites;
mod table;
mod write;

pub use cells::Sampling;
pub use clocked::{Clocked, clocks};
pub use occurrence::Occurrence;
