//! The order in which an instant of a checked program is evaluated.
#![tactic(auto)]

mod caller_needs;
pub mod evaluation;
mod givers;
mod needs_graph;
mod next;
pub mod ordered;
mod own_needs;
mod picked;
mod places;
pub mod waits;
