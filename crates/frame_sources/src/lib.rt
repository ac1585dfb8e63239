//! The sources of the slots of any declaration of a checked program.
#![tactic(auto)]

pub mod contracts;
pub mod copies;
pub mod frame;
mod held;
pub mod imports;
mod kept;
pub mod laws;
pub mod modes;
mod own;
mod rights;
mod switches;
mod walk;
mod whole;

pub use switches::switch_of;
pub use whole::sources;
