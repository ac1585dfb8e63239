//! All that is evaluated at an instant of a declaration of a checked program, in the order in which it would come if
//! nothing had to wait.
#![tactic(auto)]

mod links;
pub mod named;
pub mod sources;
pub mod turns;
