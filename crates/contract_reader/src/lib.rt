//! Reads whole programs: declarations, contracts and locals. The items of bodies and the
//! expressions are read by lus_reader.
#![tactic(auto)]

mod begin;
mod contract;
mod declaration;
mod import;
mod locals;
mod mode;
mod node;
mod program;

pub use program::{one_tree, read_program};
