//! The grammar of the language as a definition: what a text is, its tree, and where and why a
//! source is refused. It has no code but the laws of these definitions.
#![tactic(auto)]

pub mod laws;
