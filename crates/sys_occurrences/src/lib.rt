//! The `pre`, the `->` and the calls of a declaration by their numbers, each with the clock of its place.
#![tactic(auto)]

pub mod memories;
pub mod places;
pub mod sites;
pub mod starts;
