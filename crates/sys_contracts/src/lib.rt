//! What contracts say of a frame: assumptions, guarantees and modes, those of imports too.
#![tactic(auto)]

mod imports;
pub mod items;
pub mod laws;
mod modes;
pub mod promises;
pub mod statements;
