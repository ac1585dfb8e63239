//! Ways on from values that are not whole: splits, and cuts of rows (R. E. Gomory, Outline of an
//! algorithm for integer solutions to linear programs, 1958).

#![tactic(auto)]

mod cuts;
mod gomory;
mod parts;
mod splits;
mod standing;
mod sums;
mod trouble;

pub use cuts::{Cut, CutAnswer, CutFault};
pub use gomory::cut_of;
pub use splits::split_of;
