//! What the rules of names, types and numbers ask of what stands in a scope.
#![tactic(auto)]

pub mod bodies;
mod callee;
mod calls;
pub mod contracts;
pub mod counted;
pub mod declarations;
mod equation;
pub mod expression;
mod firsts;
mod forms;
pub mod found;
mod imports;
pub mod layer;
pub mod least;
pub mod lookup;
pub mod meant;
pub mod memory;
pub mod names;
mod notes;
mod owner;
mod part;
pub mod scope;
pub mod sorts;
mod statement;
mod values;
mod weights;
mod with_modes;
pub mod worth;
mod worths;
