//! Answers to obligations: a proof that no states answer one with no, states that do, or why the
//! solver stopped.
//!
//! Numbers are searched by a simplex over whole numbers and by splits.

#![tactic(auto)]

mod answer;
mod attempt;
mod boolean;
mod fault;
mod judging;
pub mod laws;
mod numbers;
mod run;
mod solver;
mod solving;
mod states;
mod work;

pub use answer::Answer;
pub use boolean::{is_boolean_obligation, is_boolean_system, is_boolean_term};
pub use fault::SolveFault;
pub use solving::solve;
