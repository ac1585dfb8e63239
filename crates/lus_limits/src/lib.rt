//! The limits of a program: how many names, properties and variables its declarations have, and how large its terms
//! are, counted once for each declaration and not for each of its instances.
#![tactic(auto)]

mod calls;
mod chains;
mod contract_size;
mod frame_size;
mod framed;
mod inner;
mod known;
pub mod laws;
mod measuring;
mod needs;
mod node_size;
mod own;
mod part;
mod presence;
mod settling;
mod sites;
mod summing;
mod systems;
mod term_size;
mod texts;

pub use calls::{Call, Way};
pub use framed::{Frame, program_frames};
pub use sites::calls_of;
pub use summing::{ItemCounts, Link, Summary, summed};
pub use systems::{SystemSize, system_sizes};
