//! Entries as they are told.

ghost use Rattle.std.specs.Prelude.{◌≡◌, IfOk};
ghost use Rattle.sys_terms.specs.View.{states_view};
ghost use Rattle.board_core.specs.View.{cause_view, statement_view, broken_said, stuck_said, spent_said};

use crate::cause::{Cause, copied_states};
use std::alloc::{AllocError, Global};
use sys_terms::{State, Term};

/// What an entry says, without what it keeps.
#[derive(Drop)]
pub enum Statement {
    /// The property is true at the instants from 0 to this one.
    Base {
        property: u32,
        instant: u32,
    },
    /// The property is true after k states at which it is true.
    Step {
        property: u32,
        k: u32,
    },
    /// The term is true in each reachable state.
    Lemma(Term),
    /// The property is true in each reachable state.
    Held(u32),
    /// The property is false at the last state of this path, and there alone.
    Broken {
        property: u32,
        path: Vec<State>,
    },
    /// States joined by steps, on which each lemma at a place below the front is true, with the
    /// property false at the last one alone.
    Stuck {
        property: u32,
        path: Vec<State>,
        front: u64,
    },
    /// The engine leaves the property undecided, for this cause.
    Spent {
        engine: u32,
        property: u32,
        cause: Cause,
    },
}

/// An entry as it is told, with its place, counted from 0, and the number of its seat.
#[derive(Drop)]
pub struct News {
    pub place: u64,
    pub seat: u32,
    pub statement: Statement,
}

/// That an equal path breaks the property.
pub(crate) fn broken(alloc: Global, property: u32, path: &[State]) -> Result<Statement, AllocError>
    ensures { IfOk result (λ s. statement_view s ≡ broken_said property (states_view path.now)) }
{
    let path = copied_states(alloc, path)?;
    Ok(Statement::Broken { property, path })
}

/// That induction is stuck at an equal path.
pub(crate) fn stuck(
    alloc: Global,
    property: u32,
    path: &[State],
    front: u64,
) -> Result<Statement, AllocError>
    ensures { IfOk result (λ s. statement_view s ≡ stuck_said property (states_view path.now) front) }
{
    let path = copied_states(alloc, path)?;
    Ok(Statement::Stuck {
        property,
        path,
        front,
    })
}

/// That the engine leaves the property undecided for an equal cause.
pub(crate) fn spent(
    alloc: Global,
    engine: u32,
    property: u32,
    cause: &Cause,
) -> Result<Statement, AllocError>
    ensures { IfOk result (λ s. statement_view s ≡ spent_said engine property (cause_view cause.now)) }
{
    let cause = cause.copied(alloc)?;
    Ok(Statement::Spent {
        engine,
        property,
        cause,
    })
}

impl Statement {
    /// An equal statement.
    pub fn copied(&self, alloc: Global) -> Result<Statement, AllocError>
        ensures { IfOk result (λ s. statement_view s ≡ statement_view self.now) }
    {
        match self {
            Statement::Base { property, instant } => Ok(Statement::Base {
                property: *property,
                instant: *instant,
            }),
            Statement::Step { property, k } => Ok(Statement::Step {
                property: *property,
                k: *k,
            }),
            Statement::Lemma(term) => {
                let term = term.copied(alloc)?;
                Ok(Statement::Lemma(term))
            }
            Statement::Held(property) => Ok(Statement::Held(*property)),
            Statement::Broken { property, path } => broken(alloc, *property, path),
            Statement::Stuck {
                property,
                path,
                front,
            } => stuck(alloc, *property, path, *front),
            Statement::Spent {
                engine,
                property,
                cause,
            } => spent(alloc, *engine, *property, cause),
        }
    }
}
