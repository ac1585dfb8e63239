//! What lines over literals come to where bounds of a tableau refute each other or make a cut. It has no code but these
//! laws.
#![tactic(auto)]

pub mod laws;
