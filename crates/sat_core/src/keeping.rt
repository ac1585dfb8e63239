//! A clause more, with its watched literals.

ghost use Rattle.std.specs.Prelude.{◌≡◌, ◌++◌, ◌∷◌, ◌<◌, [], OnOk, OnErr, length};
ghost use Rattle.proof_steps.specs.View.{clause_view};
ghost use Rattle.sat_core.specs.Watching.{IsApartPair, IsEntered, IsOnly, IsUnmoved};

use crate::store::ClauseStore;
use crate::watches::Watches;
use proof_steps::{Clause, Literal};
use std::alloc::{AllocError, Global};

/// The first literal, which is the only one of a clause that watches none.
fn first(clause: &[Literal]) -> Option<Literal>
    ensures { IsOnly clause.now result }
{
    match clause.first() {
        Some(literal) => Some(*literal),
        None => None,
    }
}

/// Keeps a clause that watches two literals or none.
pub fn keep(
    alloc: Global,
    clauses: &mut ClauseStore,
    watches: &mut Watches,
    clause: Clause,
    watched: Option<(Literal, Literal)>,
) -> Result<(), AllocError>
    requires few { length watches.old.pairs < 4294967295 }
    requires apart { IsApartPair watched }
    ensures clauses { OnOk result (clauses.new ≡ clauses.old ++ clause_view clause ∷ []) }
    ensures entered { OnOk result (IsEntered watches.old watches.new (clause_view clause) watched) }
    ensures same_clauses { OnErr result (clauses.new ≡ clauses.old) }
    ensures same_watches { OnErr result (IsUnmoved watches.old watches.new) }
{
    let only = first(clause.literals.as_slice());
    clauses.push(clause)?;
    match watches.enter(alloc, only, watched) {
        Ok(()) => Ok(()),
        Err(fault) => {
            clauses.pop();
            Err(fault)
        }
    }
}
