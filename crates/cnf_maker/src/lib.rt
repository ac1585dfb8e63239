//! Queries in clause form.
//!
//! Flags and variables are numbered from 0, atoms and clauses from 1. The first variable after the
//! query's own is a flag, the truth.

#![tactic(auto)]

mod bounds;
mod clause;
mod cnf;
mod fault;
pub mod laws;
mod linear;
mod maker;
mod query;
mod walk;

pub use cnf::Cnf;
pub use fault::CnfFault;
pub use query::clauses;
