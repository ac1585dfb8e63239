//! How far an engine is.

use crate::halted::Halted;
use crate::lemmas::Lemmas;
use proof_steps::Proof;
use sys_terms::State;

/// How far an engine is with a property.
#[derive(Drop)]
pub(crate) enum Task {
    /// Bounded search: the instants so far are refuted, by a proof each.
    Refuted(Vec<Proof>),
    /// Induction: the step by one state less than it is at has this run; for one state there is none.
    Run(Vec<State>),
    /// It ended before its depth.
    Halted(Halted),
    /// It went to its depth, and what shows it is posted.
    Ended,
    /// An entry holds or breaks it.
    Decided,
}

/// The number of the next turn that asks, the lemmas that it cites, and each property's task. Bounded
/// search asks about instant n in turn n, and cites none; induction asks the step by n states. The turn
/// behind the depth tells why properties are undecided.
#[derive(Drop)]
pub(crate) struct Search {
    pub(crate) turn: u32,
    pub(crate) lemmas: Lemmas,
    pub(crate) tasks: Vec<Task>,
}
