//! What a sound book over the system of a declaration of a checked program says of the declaration's runs. It has no
//! code but these laws.

#![tactic(auto)]

pub mod laws;
