//! Expressions whose names are resolved to numbers of slots.
#![tactic(auto)]

mod resolving;
mod slots;

pub use resolving::resolve;
pub use slots::{Found, Held, Slots};
