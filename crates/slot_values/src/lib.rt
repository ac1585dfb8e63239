//! The value of an expression over a row of slot values, with numbers of 128 bits: the value, or the first operation in
//! it whose result is outside.
//!
//! The names of an expression are found before any instant is evaluated: it is resolved to numbers of slots.
#![tactic(auto)]

mod evaluation;
pub mod laws;
mod operation;
mod outcome;
mod quick;
mod quick_operation;
mod resolved;
mod slot;

pub use evaluation::{evaluate, value_within};
pub use outcome::Outcome;
pub use resolved::{PastAt, Resolved};
pub use slot::{SlotValue, is_truth, value_if};
