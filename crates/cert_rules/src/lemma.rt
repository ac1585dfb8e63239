//! A term true in all reachable states.

ghost use Rattle.std.specs.Prelude.{◌≡◌, None};
ghost use Rattle.sys_terms.specs.View.{system_view, term_view};
ghost use Rattle.proof_steps.specs.View.{proof_view};
ghost use Rattle.cert_rules.specs.View.{cited_terms};
ghost use Rattle.cert_rules.specs.Faults.{lemma_fault};

use crate::cited::Cited;
use proof_steps::Proof;
use std::snapshot::Snapshot;
use sys_terms::{System, Term};

/// The term is true in each first state, and after each step from a state at which it is true,
/// where the cited lemmas are: its two proofs break no rule.
#[derive(Drop)]
pub struct Lemma {
    pub(crate) term: Term,
    pub(crate) cites: Vec<Cited>,
    pub(crate) first: Proof,
    pub(crate) next: Proof,
    pub(crate) of: Snapshot<System>,
    ghost right: { lemma_fault (system_view of.value) (term_view term)
        (cited_terms cites.items) (proof_view first) (proof_view next) ≡ None },
}
