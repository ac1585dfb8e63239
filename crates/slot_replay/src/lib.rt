//! The replay of a list of sources: the first operation outside 128 bits of what is evaluated, or at which instants
//! properties break, how many instants are lawful, and the value of each slot.
#![tactic(auto)]

mod conditions;
mod fault;
pub mod laws;
mod marks;
mod parts;
mod replayed;
mod replaying;
mod truth;
mod watching;

pub use conditions::Conditions;
pub use fault::ReplayFault;
pub use parts::{PartAt, Parts};
pub use replayed::Replayed;
pub use replaying::replay;
