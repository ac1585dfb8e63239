//! Facts made by checking their proofs.

ghost use Rattle.std.specs.Prelude.{◌≡◌, ◌<◌, ◌≤◌, ◌^◌, length};
ghost use Rattle.proof_steps.specs.View.{proof_view};
ghost use Rattle.sys_terms.specs.View.{term_view, terms_view, system_view};
ghost use Rattle.sys_terms.specs.Fits.{IsMild};
ghost use Rattle.cert_rules.specs.View.{cites_view, cited_terms, proofs_view};
ghost use Rattle.cert_rules.specs.Facts.{base_fact, step_fact, lemma_fact};
ghost use Rattle.cert_rules.specs.Faults.{base_fault, step_fault, lemma_fault};
ghost use Rattle.cert_rules.specs.Kept.{base_view, base_machine, step_view, step_machine, lemma_view, lemma_machine};
ghost use Rattle.cert_rules.specs.Answers.{Allows, Makes};

use crate::base::Base;
use crate::cited::{Cited, copied_cites, copied_proofs, terms_of};
use crate::fault::RuleFault;
use crate::lemma::Lemma;
use crate::refuting::{are_terms, has_property, is_term, refused, refute, refute_bases};
use crate::step::Step;
use proof_checker::Rule;
use proof_steps::Proof;
use std::alloc::Global;
use std::snapshot::Snapshot;
use sys_terms::{Obligation, System, Term};

fn allow_base(
    alloc: Global,
    system: &System,
    cites: &[Term],
    property: u32,
    instant: u32,
    proofs: &[Proof],
) -> Result<(), RuleFault>
    requires mild { IsMild (system_view system.now) }
    requires few { length (system_view system.now).shapes < 2 ^ 32 }
    ensures { Allows (base_fault (system_view system.now) property instant
        (terms_view cites.now) (proofs_view proofs.now)) result }
{
    if !has_property(system, property) {
        return Err(refused(0, Rule::Property));
    }
    if !are_terms(system, cites) {
        return Err(refused(0, Rule::Term));
    }
    if proofs.len() as u64 != instant as u64 + 1 {
        return Err(refused(0, Rule::Parts));
    }
    refute_bases(alloc, system, property, cites, proofs)
}

/// The property at the instants 0 to `instant`, by one refutation each.
///
/// It is refused exactly where a rule is broken, in this order: the property is one of the system's;
/// each cited term fits, is of one state, has no weight above 2^63 and at most 5,000 levels; there
/// are as many refutations as instants; each refutes its query by the rules of its lines, the first
/// broken one being told with its part.
pub fn check_base(
    alloc: Global,
    system: &System,
    cites: &[Cited],
    property: u32,
    instant: u32,
    proofs: &[Proof],
) -> Result<Base, RuleFault>
    requires mild { IsMild (system_view system.now) }
    requires few { length (system_view system.now).shapes < 2 ^ 32 }
    ensures { Makes base_view base_machine (system_view system.now)
        (base_fact property instant (cites_view cites.now) (proofs_view proofs.now))
        (base_fault (system_view system.now) property instant (cited_terms cites.now) (proofs_view proofs.now)) result }
{
    let terms = terms_of(alloc, cites)?;
    allow_base(alloc, system, &terms, property, instant, proofs)?;
    let cites = copied_cites(alloc, cites)?;
    let proofs = copied_proofs(alloc, proofs)?;
    Ok(Base {
        property,
        instant,
        cites,
        proofs,
        of: Snapshot::of(system),
    })
}

fn allow_step(
    alloc: Global,
    system: &System,
    cites: &[Term],
    property: u32,
    k: u32,
    proof: &Proof,
) -> Result<(), RuleFault>
    requires mild { IsMild (system_view system.now) }
    requires few { length (system_view system.now).shapes < 2 ^ 32 }
    ensures { Allows (step_fault (system_view system.now) property k
        (terms_view cites.now) (proof_view proof.now)) result }
{
    if !has_property(system, property) {
        return Err(refused(0, Rule::Property));
    }
    if !are_terms(system, cites) {
        return Err(refused(0, Rule::Term));
    }
    if k == 0 {
        return Err(refused(0, Rule::Parts));
    }
    let what = Obligation::Step { property, k };
    refute(alloc, system, 0, &what, cites, proof)
}

/// The property after k states at which it is true, by one refutation.
///
/// It is refused exactly where a rule is broken, in the order of `check_base`.
pub fn check_step(
    alloc: Global,
    system: &System,
    cites: &[Cited],
    property: u32,
    k: u32,
    proof: &Proof,
) -> Result<Step, RuleFault>
    requires mild { IsMild (system_view system.now) }
    requires few { length (system_view system.now).shapes < 2 ^ 32 }
    requires some_state { 1 ≤ k }
    ensures { Makes step_view step_machine (system_view system.now)
        (step_fact property k (cites_view cites.now) (proof_view proof.now))
        (step_fault (system_view system.now) property k (cited_terms cites.now) (proof_view proof.now)) result }
{
    let terms = terms_of(alloc, cites)?;
    allow_step(alloc, system, &terms, property, k, proof)?;
    let cites = copied_cites(alloc, cites)?;
    let proof = proof.copied(alloc)?;
    Ok(Step {
        property,
        k,
        cites,
        proof,
        of: Snapshot::of(system),
    })
}

fn allow_lemma(
    alloc: Global,
    system: &System,
    cites: &[Term],
    term: &Term,
    first: &Proof,
    next: &Proof,
) -> Result<(), RuleFault>
    requires mild { IsMild (system_view system.now) }
    requires few { length (system_view system.now).shapes < 2 ^ 32 }
    ensures { Allows (lemma_fault (system_view system.now) (term_view term.now)
        (terms_view cites.now) (proof_view first.now) (proof_view next.now)) result }
{
    if !is_term(system, term) {
        return Err(refused(0, Rule::Term));
    }
    if !are_terms(system, cites) {
        return Err(refused(0, Rule::Term));
    }
    let at_first = Obligation::LemmaFirst(term.copied(alloc)?);
    refute(alloc, system, 0, &at_first, cites, first)?;
    let at_next = Obligation::LemmaNext(term.copied(alloc)?);
    refute(alloc, system, 1, &at_next, cites, next)
}

/// The term as a lemma, by the refutation of its first states and that of its steps.
///
/// It is refused exactly where a rule is broken: first those of the terms, then those of the two
/// refutations.
pub fn check_lemma(
    alloc: Global,
    system: &System,
    cites: &[Cited],
    term: &Term,
    first: &Proof,
    next: &Proof,
) -> Result<Lemma, RuleFault>
    requires mild { IsMild (system_view system.now) }
    requires few { length (system_view system.now).shapes < 2 ^ 32 }
    ensures { Makes lemma_view lemma_machine (system_view system.now)
        (lemma_fact (term_view term.now) (cites_view cites.now) (proof_view first.now) (proof_view next.now))
        (lemma_fault (system_view system.now) (term_view term.now)
        (cited_terms cites.now) (proof_view first.now) (proof_view next.now)) result }
{
    let terms = terms_of(alloc, cites)?;
    allow_lemma(alloc, system, &terms, term, first, next)?;
    let cites = copied_cites(alloc, cites)?;
    let term = term.copied(alloc)?;
    let first = first.copied(alloc)?;
    let next = next.copied(alloc)?;
    Ok(Lemma {
        term,
        cites,
        first,
        next,
        of: Snapshot::of(system),
    })
}
