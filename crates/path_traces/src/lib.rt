//! The trace of the states of a path of a node's system.
#![tactic(auto)]

mod defined;
mod free;
mod index;
mod lines;
mod names;
mod numbers;
mod places;
mod plan;
mod presence;
mod reading;
mod tables;
mod trace;
mod walk;

pub use places::{Place, place_of};
pub use trace::trace_of;
