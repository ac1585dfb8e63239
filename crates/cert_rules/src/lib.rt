//! Facts about systems that exist only where their proofs were checked.
//!
//! `Base`, `Step`, `Lemma` and `Held` are made by `check_base`, `check_step`, `check_lemma`,
//! `conclude` and `conclude_by` alone. Each keeps its statement, its citations and its proofs, and
//! contracts know of which system it speaks.

#![tactic(auto)]

mod base;
mod checking;
mod cited;
mod concluding;
mod fault;
mod held;
pub mod laws;
mod lemma;
mod readers;
mod refuting;
mod step;

pub use base::Base;
pub use checking::{check_base, check_lemma, check_step};
pub use cited::Cited;
pub use concluding::{conclude, conclude_by};
pub use fault::RuleFault;
pub use held::Held;
pub use lemma::Lemma;
pub use step::Step;
