//! The parts of a solver for queries that compare numbers.

pub mod asserting;
pub mod looking;
pub mod meanings;
pub mod order;
pub mod rows;
pub mod steps;
pub mod sums;
pub mod turns;
