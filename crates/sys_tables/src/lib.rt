//! What is known of the declarations of a program, once for all of their frames, and the sight of each frame.
#![tactic(auto)]

mod constants;
mod links;
mod noting;
pub mod numbers;
mod order;
mod rights;
pub mod sight;
mod streams;
pub mod table;
pub mod tables;
