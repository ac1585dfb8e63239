//! The conditions of a declaration as expressions over its slots: what makes an instant lawful, and the properties.
//! It has no code but the laws of these.
#![tactic(auto)]

pub mod laws;
