//! The streams of a declaration by their names, and their clocks.
#![tactic(auto)]

pub mod clock;
pub mod lookup;
pub mod names;
pub mod owner;
pub mod streams;
