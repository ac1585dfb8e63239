//! What gives each slot of a frame its value: the text of a program as one list, a source for each slot.
#![tactic(auto)]

mod source;

pub use source::{Source, Switch};
