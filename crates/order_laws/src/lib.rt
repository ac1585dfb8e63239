//! The order in which an instant is evaluated: what a part reads comes before it. It has no code but laws.
#![tactic(auto)]

pub mod laws;
