//! Tables of names: each name once, with its number.
#![tactic(auto)]

mod table;

pub use table::NameTable;
