//! Programs that follow every rule of the language and pass no limit: the third of the three checks.
#![tactic(auto)]

mod checked_program;
mod checking;
mod kept;
mod listing;
mod main_node;
mod orders;
mod property;
mod reads;

pub use checked_program::Checked;
pub use checking::checked;
pub use property::{Property, PropertyKind};
