//! Why an engine leaves a property undecided, and what is kept to show it.

ghost use Rattle.std.specs.Prelude.{◌≡◌, IfOk, map};
ghost use Rattle.sys_terms.specs.View.{states_view};
ghost use Rattle.board_core.specs.View.{cause_view};

use proof_steps::{Proof, Stop};
use std::alloc::{AllocError, Global};
use sys_terms::{Obligation, State, Term};

/// Why an engine leaves a property undecided.
#[derive(Drop)]
pub enum Cause {
    /// It went to this depth.
    Depth(u32),
    /// It went to this many frames.
    Frames(u32),
    /// It blocked this many clauses.
    Blocked(u32),
    /// It went through this many candidates.
    Done(u32),
    /// A query of it stopped.
    Stop(Stop),
    /// Each break that it looked for has a number of size 2^63 or more, as this path has at the
    /// instant: that of the variable of this number.
    Wide {
        path: Vec<State>,
        number: u32,
        instant: u32,
        value: i128,
    },
}

/// What is kept behind a cause: the query of which it speaks, with the places of the lemma entries
/// that it cites, and proofs, paths and lists of terms.
#[derive(Drop)]
pub struct Kept {
    pub query: Option<(Obligation, Vec<u64>)>,
    pub proofs: Vec<Proof>,
    pub paths: Vec<Vec<State>>,
    pub terms: Vec<Vec<Term>>,
}

pub(crate) fn copied_states(alloc: Global, states: &[State]) -> Result<Vec<State>, AllocError>
    ensures { IfOk result (λ v. states_view v.items ≡ states_view states.now) }
{
    let mut copies = Vec::with_capacity(alloc, states.len())?;
    for state in states {
        copies.push(state.copied(alloc)?)?;
    }
    Ok(copies)
}

impl Cause {
    /// An equal cause.
    pub fn copied(&self, alloc: Global) -> Result<Cause, AllocError>
        ensures { IfOk result (λ c. cause_view c ≡ cause_view self.now) }
    {
        match self {
            Cause::Depth(n) => Ok(Cause::Depth(*n)),
            Cause::Frames(n) => Ok(Cause::Frames(*n)),
            Cause::Blocked(n) => Ok(Cause::Blocked(*n)),
            Cause::Done(n) => Ok(Cause::Done(*n)),
            Cause::Stop(stop) => {
                let stop = stop.copied(alloc)?;
                Ok(Cause::Stop(stop))
            }
            Cause::Wide {
                path,
                number,
                instant,
                value,
            } => {
                let path = copied_states(alloc, path)?;
                Ok(Cause::Wide {
                    path,
                    number: *number,
                    instant: *instant,
                    value: *value,
                })
            }
        }
    }
}
