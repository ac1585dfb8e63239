//! The properties of a declaration of a program, in order, with what names each: its kind, the calls and imports on
//! the way to it, and its label or its place.
#![tactic(auto)]

mod contract;
mod declared;
mod items;
mod listing;
mod property;
mod text;

pub use listing::properties;
pub use property::{Property, PropertyKind};
pub use text::label_text;
