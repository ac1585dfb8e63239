//! A search for an assignment under which each of a list of clauses has a true literal. What it
//! learns on the way it logs as derived steps, which the checker of proofs accepts.

#![tactic(auto)]

mod analysis;
mod answer;
mod assigned;
mod assignment;
mod derived;
mod found;
mod keeping;
pub mod laws;
mod order;
mod placing;
mod propagation;
mod reduction;
mod search;
mod set;
mod short;
mod store;
mod trail;
mod variables;
mod visiting;
mod watches;

pub use assigned::Assigned;
pub use found::{Found, SearchFault};
pub use search::Search;
