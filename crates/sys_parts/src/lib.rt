//! Terms of either type, and what the translation makes of them.
#![tactic(auto)]

pub mod amounts;
pub mod choices;
pub mod constant;
pub mod formulas;
pub mod joins;
pub mod operators;
pub mod parts;
pub mod values;
