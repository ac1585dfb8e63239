//! A property true in all reachable states.

ghost use Rattle.std.specs.Prelude.{◌≡◌, None};
ghost use Rattle.sys_terms.specs.View.{system_view};
ghost use Rattle.cert_rules.specs.Reasons.{reason_fault};

use crate::base::Base;
use crate::lemma::Lemma;
use crate::step::Step;
use proof_steps::Proof;
use std::snapshot::Snapshot;
use sys_terms::System;

/// Why a property is held: by a base and a step, or by a lemma that implies it.
#[derive(Drop)]
pub(crate) enum Reason {
    Both {
        base: Snapshot<Base>,
        step: Snapshot<Step>,
    },
    By {
        lemma: Snapshot<Lemma>,
        proof: Proof,
    },
}

/// The property is true in all reachable states, where the cited lemmas are.
#[derive(Drop)]
pub struct Held {
    pub(crate) property: u32,
    pub(crate) reason: Reason,
    pub(crate) of: Snapshot<Snapshot<System>>,
    ghost right: { reason_fault (system_view of.value.value) property reason ≡ None },
}
