use proof_steps::{Proof, Stop};
use sys_terms::State;

/// What a solver answers of an obligation.
#[derive(Drop)]
pub enum Answer {
    /// No values meet the query's conditions, by this proof, which the checker accepts.
    Unsat(Proof),
    /// States that make all conditions of the query true, and so answer the obligation with no.
    Sat(Vec<State>),
    /// Neither was found within the budgets.
    Stop(Stop),
}
