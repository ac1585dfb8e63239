//! The conditions of any declaration of a checked program, as expressions over its slots.
#![tactic(auto)]

pub mod bodies;
pub mod conditions;
mod frames;
mod imports;
pub mod laws;
mod owed;
mod promises;
pub mod statements;
mod walk;
mod whole;

pub use whole::{legal, properties};
