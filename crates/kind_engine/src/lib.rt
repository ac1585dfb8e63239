//! Engines that look for breaks and for proofs of a system's properties, turn by turn, and post what
//! they find in the book.
//!
//! `BoundedEngine` goes through the instants from 0 on, `StepEngine` through the steps by one, two and
//! more states.

#![tactic(auto)]

mod asking;
mod bounded;
mod checking;
mod grounds;
mod halted;
mod induction;
mod large;
mod lemmas;
mod looking;
mod narrow;
mod posting;
mod searching;
mod stepping;
mod subject;
mod task;
mod turning;

pub use bounded::BoundedEngine;
pub use induction::StepEngine;
