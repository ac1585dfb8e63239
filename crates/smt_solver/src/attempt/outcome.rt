//! What an attempt comes to.

use proof_steps::Proof;
use sys_terms::Entry;

/// What an attempt gives, to be judged: steps that are to refute the form, or values of the query's variables that
/// are to meet its conditions.
#[derive(Drop)]
pub enum Attempt {
    Refuted(Proof),
    Found(Vec<Entry>),
}
