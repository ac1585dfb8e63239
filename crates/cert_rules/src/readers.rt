//! What a fact says and keeps. None of these calls takes memory.

ghost use Rattle.std.specs.Prelude.{◌≡◌, option_map};
ghost use Rattle.proof_steps.specs.View.{proof_view};
ghost use Rattle.sys_terms.specs.View.{term_view};
ghost use Rattle.cert_rules.specs.View.{cites_view, proofs_view};
ghost use Rattle.cert_rules.specs.Kept.{base_property, base_instant, base_cites, base_proofs, step_property, step_k, step_cites, step_proof, lemma_term, lemma_cites, lemma_first_proof, lemma_next_proof, held_property, held_proof};

use crate::base::Base;
use crate::cited::Cited;
use crate::held::{Held, Reason};
use crate::lemma::Lemma;
use crate::step::Step;
use proof_steps::Proof;
use sys_terms::Term;

impl Base {
    /// The number of the property.
    pub fn property(&self) -> u32
        ensures { result ≡ base_property self.now }
    {
        self.property
    }

    /// The last instant.
    pub fn instant(&self) -> u32
        ensures { result ≡ base_instant self.now }
    {
        self.instant
    }

    /// The cited lemmas, in order.
    pub fn cites(&self) -> &[Cited]
        ensures { cites_view result.now ≡ base_cites self.now }
    {
        &self.cites
    }

    /// The refutations of the instants from 0 on, one each.
    pub fn proofs(&self) -> &[Proof]
        ensures { proofs_view result.now ≡ base_proofs self.now }
    {
        &self.proofs
    }
}

impl Step {
    /// The number of the property.
    pub fn property(&self) -> u32
        ensures { result ≡ step_property self.now }
    {
        self.property
    }

    /// How many states come before the last one, at which the property is true.
    pub fn k(&self) -> u32
        ensures { result ≡ step_k self.now }
    {
        self.k
    }

    /// The cited lemmas, in order.
    pub fn cites(&self) -> &[Cited]
        ensures { cites_view result.now ≡ step_cites self.now }
    {
        &self.cites
    }

    /// The refutation of the step.
    pub fn proof(&self) -> &Proof
        ensures { proof_view result.now ≡ step_proof self.now }
    {
        &self.proof
    }
}

impl Lemma {
    /// The term.
    pub fn term(&self) -> &Term
        ensures { term_view result.now ≡ lemma_term self.now }
    {
        &self.term
    }

    /// The cited lemmas, in order.
    pub fn cites(&self) -> &[Cited]
        ensures { cites_view result.now ≡ lemma_cites self.now }
    {
        &self.cites
    }

    /// The refutation that the term is false at a first state.
    pub fn first(&self) -> &Proof
        ensures { proof_view result.now ≡ lemma_first_proof self.now }
    {
        &self.first
    }

    /// The refutation that the term is false after a step from a state at which it is true.
    pub fn next(&self) -> &Proof
        ensures { proof_view result.now ≡ lemma_next_proof self.now }
    {
        &self.next
    }
}

impl Held {
    /// The number of the property.
    pub fn property(&self) -> u32
        ensures { result ≡ held_property self.now }
    {
        self.property
    }

    /// The refutation that a lemma does not imply the property; none exactly where a base and a step
    /// hold it.
    pub fn proof(&self) -> Option<&Proof>
        ensures { option_map (λ p. proof_view p.now) result ≡ held_proof self.now }
    {
        match &self.reason {
            Reason::Both { .. } => None,
            Reason::By { proof, .. } => Some(proof),
        }
    }
}
