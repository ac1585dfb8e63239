//! Rows of values from sources: in which order the slots of a frame get their values at an instant, and the table of
//! these values, instant after instant.
#![tactic(auto)]

mod bringing;
mod chosen;
mod filling;
mod giving;
pub mod laws;
mod ordering;
mod reads;
mod search;
mod slot;
mod slot_reads;
mod stillness;
mod table;
mod turn;
mod turns;

pub use chosen::Chosen;
pub use filling::fill;
pub use ordering::order;
pub use reads::{push_reads_now, reads_now};
pub use slot::is_on;
pub use table::Table;
