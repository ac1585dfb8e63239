//! The check of a program's limits.
#![tactic(auto)]

mod checks;
mod faults;
mod names;
mod passed;

pub use checks::limits;
pub use faults::parts_after;
