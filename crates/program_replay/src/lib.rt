//! The replay of a trace on any checked program.
#![tactic(auto)]

mod answer;
mod chosen;
mod fault;
mod fitted;
mod instant;
mod named;
mod replaying;
mod shapes;
mod slots;

pub use answer::Replay;
pub use fault::ReplayFault;
pub use replaying::replay;
