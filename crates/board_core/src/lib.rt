//! The book of what engines find out about one system, the seats at which they post and read, and
//! what an engine is.
//!
//! A `Book` is a system, a plan and entries numbered by place. Its invariant is that it is sound:
//! each entry is true of the system after those before it.

#![tactic(auto)]

mod book;
mod cause;
mod chair;
mod engine;
mod entry;
mod fact;
mod fault;
mod judging;
pub mod laws;
mod plan;
mod playing;
mod posted;
mod seat;
mod statement;
mod telling;
mod verdict;

pub use book::Book;
pub use cause::{Cause, Kept};
pub use chair::Chair;
pub use engine::{Engine, Progress};
pub use entry::Entry;
pub use fact::Fact;
pub use fault::{BookFault, EngineFault, PlayFault, PostBack};
pub use plan::Plan;
pub use playing::play;
pub use seat::BoardSeat;
pub use statement::{News, Statement};
pub use verdict::Verdict;
