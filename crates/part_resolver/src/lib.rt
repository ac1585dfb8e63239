//! The parts of an instant of any declaration of a checked program, as expressions over its slots.
#![tactic(auto)]

mod kept;
mod seats;
mod seen;
mod whole;

pub use whole::resolved;
