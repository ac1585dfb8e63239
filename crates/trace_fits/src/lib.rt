//! Whether a trace fits a checked program, and what it lists.
#![tactic(auto)]

mod fitted;
mod fitting;
mod listing;
mod permitted;
mod place;
mod program_fit;
mod seats;
mod streams;
mod table;
mod walk;

pub use fitted::Fitted;
pub use listing::listable;
pub use permitted::Listable;
pub use place::{Place, Subject};
pub use program_fit::{fit, fit_listed};
pub use table::ListableTable;
