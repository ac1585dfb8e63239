//! Where the variables of the systems of a program's declarations stand.
#![tactic(auto)]

pub mod laws;
mod placing;

pub use placing::{CallSlots, Layout, layouts};
