//! On which slots the parts of an instant rest: what they read is evaluated before them. It has no code but laws.
#![tactic(auto)]

pub mod laws;
