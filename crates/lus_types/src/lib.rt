//! The rules of names, types and numbers, of declarations and of a program.
#![tactic(auto)]

mod before;
mod called;
mod circles;
mod component;
mod declared;
mod entries;
mod found;
mod home;
mod labels;
mod marks;
mod named;
mod naming;
mod parts;
mod place;
mod program_rules;
mod ranks;
mod reading;
mod reads;
mod recursion;
mod repeated;
mod rules;
mod setting;
mod sides;
mod state;
mod tables;
mod typed;
mod walk;
mod ways;
mod words;

pub use found::{Kind, Named};
pub use typed::{Typed, types};
