//! A property true after some states at which it is true.

ghost use Rattle.std.specs.Prelude.{◌≡◌, None};
ghost use Rattle.sys_terms.specs.View.{system_view};
ghost use Rattle.proof_steps.specs.View.{proof_view};
ghost use Rattle.cert_rules.specs.View.{cited_terms};
ghost use Rattle.cert_rules.specs.Faults.{step_fault};

use crate::cited::Cited;
use proof_steps::Proof;
use std::snapshot::Snapshot;
use sys_terms::System;

/// The property is true after k states, joined by steps, at which it and the cited lemmas are true:
/// its proof breaks no rule.
#[derive(Drop)]
pub struct Step {
    pub(crate) property: u32,
    pub(crate) k: u32,
    pub(crate) cites: Vec<Cited>,
    pub(crate) proof: Proof,
    pub(crate) of: Snapshot<System>,
    ghost right: { step_fault (system_view of.value) property k (cited_terms cites.items) (proof_view proof) ≡ None },
}
