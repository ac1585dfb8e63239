//! A property true at the first instants of each path.

ghost use Rattle.std.specs.Prelude.{◌≡◌, None};
ghost use Rattle.sys_terms.specs.View.{system_view};
ghost use Rattle.cert_rules.specs.View.{cited_terms, proofs_view};
ghost use Rattle.cert_rules.specs.Faults.{base_fault};

use crate::cited::Cited;
use proof_steps::Proof;
use std::snapshot::Snapshot;
use sys_terms::System;

/// The property is true at the instants 0 to `instant` of each path on which the cited lemmas are
/// true: its proofs, one for each instant, break no rule.
#[derive(Drop)]
pub struct Base {
    pub(crate) property: u32,
    pub(crate) instant: u32,
    pub(crate) cites: Vec<Cited>,
    pub(crate) proofs: Vec<Proof>,
    pub(crate) of: Snapshot<System>,
    ghost right: { base_fault (system_view of.value) property instant
        (cited_terms cites.items) (proofs_view proofs.items) ≡ None },
}
