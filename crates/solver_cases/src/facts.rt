//! Facts that are made and refused.

ghost use Rattle.std.specs.Prelude.{◌≡◌, ◌≤◌, [], IfOk};
ghost use Rattle.sys_terms.specs.View.{system_view};
ghost use Rattle.cert_rules.specs.Kept.{base_machine, base_cites, step_machine, lemma_machine, lemma_cites};
ghost use Rattle.solver_cases.specs.Ready.{IsReady};

use crate::given::{Given, proof, proofs, ready};
use crate::parts::{number, parts};
use crate::terms::term;
use anyhow::Result;
use cert_rules::{
    Base, Cited, Held, Lemma, RuleFault, Step, check_base, check_lemma, check_step, conclude,
    conclude_by,
};
use proof_steps::Proof;
use std::alloc::{AllocError, Global};
use sys_terms::{System, Term, same_term};

/// What is cited: nothing, or the term behind its place.
fn cited(alloc: Global, text: &str) -> Result<Vec<Cited>, AllocError> {
    let mut cites = Vec::new(alloc);
    if let Some((place, rest)) = text.split_once(' ') {
        cites.push(Cited {
            place: place.parse().unwrap_or(0),
            term: term(alloc, rest)?,
        })?;
    }
    Ok(cites)
}

fn base_text(alloc: Global, base: &Result<Base, RuleFault>) -> Result<String, AllocError> {
    match base {
        Ok(base) => {
            let (property, instant) = (base.property(), base.instant());
            let (cites, proofs) = (base.cites().len(), base.proofs().len());
            format!(in alloc; "base {property} at {instant}, {cites} cited, {proofs} proofs")
        }
        Err(fault) => format!(in alloc; "{fault}"),
    }
}

/// `SYSTEM; PROPERTY; INSTANT; CITED; REFUTATIONS`: the base.
pub fn base(alloc: Global, given: &Given, case: &str) -> Result<String> {
    let parts = parts(case);
    let system = ready(given, parts[0])?;
    let (property, instant) = (number(parts[1]), number(parts[2]));
    let proofs = proofs(alloc, given, parts[4])?;
    let cites = cited(alloc, parts[3])?;
    let base = check_base(alloc, system, &cites, property, instant, &proofs);
    Ok(base_text(alloc, &base)?)
}

fn step_text(alloc: Global, step: &Result<Step, RuleFault>) -> Result<String, AllocError> {
    match step {
        Ok(step) => {
            let (property, k) = (step.property(), step.k());
            let (cites, steps) = (step.cites().len(), step.proof().steps.len());
            format!(in alloc; "step {property} after {k}, {cites} cited, {steps} lines")
        }
        Err(fault) => format!(in alloc; "{fault}"),
    }
}

/// A number of states, one at least.
fn some_states(word: &str) -> u32
    ensures { 1 ≤ result }
{
    let k = number(word);
    if k == 0 { 1 } else { k }
}

/// `SYSTEM; PROPERTY; K; REFUTATION`: the step after K states.
pub fn step(alloc: Global, given: &Given, case: &str) -> Result<String> {
    let parts = parts(case);
    let system = ready(given, parts[0])?;
    let proof = proof(given, parts[3])?;
    let k = some_states(parts[2]);
    let step = check_step(alloc, system, &[], number(parts[1]), k, proof);
    Ok(step_text(alloc, &step)?)
}

fn lemma_text(
    alloc: Global,
    lemma: &Result<Lemma, RuleFault>,
    term: &Term,
) -> Result<String, AllocError> {
    match lemma {
        Ok(lemma) => {
            let same = same_term(lemma.term(), term);
            let cites = lemma.cites().len();
            let (first, next) = (lemma.first().steps.len(), lemma.next().steps.len());
            format!(in alloc; "a lemma, same {same}, {cites} cited, {first} and {next} lines")
        }
        Err(fault) => format!(in alloc; "{fault}"),
    }
}

/// `SYSTEM; TERM; REFUTATION; REFUTATION`: the lemma.
pub fn lemma(alloc: Global, given: &Given, case: &str) -> Result<String> {
    let parts = parts(case);
    let system = ready(given, parts[0])?;
    let first = proof(given, parts[2])?;
    let next = proof(given, parts[3])?;
    let term = term(alloc, parts[1])?;
    let lemma = check_lemma(alloc, system, &[], &term, first, next);
    Ok(lemma_text(alloc, &lemma, &term)?)
}

fn held_text(alloc: Global, held: &Result<Held, RuleFault>) -> Result<String, AllocError> {
    match held {
        Ok(held) => {
            let property = held.property();
            let by_lemma = held.proof().is_some();
            format!(in alloc; "holds {property}, by a lemma {by_lemma}")
        }
        Err(fault) => format!(in alloc; "{fault}"),
    }
}

/// The base of the first property at the first instant.
pub fn first_base(alloc: Global, system: &System, proofs: &[Proof]) -> Result<Base>
    requires { IsReady (system_view system.now) }
    ensures system { IfOk result (λ b. base_machine b ≡ system_view system.now) }
    ensures alone { IfOk result (λ b. base_cites b ≡ []) }
{
    Ok(check_base(alloc, system, &[], 0, 0, proofs)?)
}

/// The step of the first property after k states.
fn step_after(alloc: Global, system: &System, k: u32, proof: &Proof) -> Result<Step>
    requires ready { IsReady (system_view system.now) }
    requires some { 1 ≤ k }
    ensures { IfOk result (λ s. step_machine s ≡ system_view system.now) }
{
    Ok(check_step(alloc, system, &[], 0, k, proof)?)
}

/// The first property by the base at the first instant and the step after K states.
fn conclusion(
    alloc: Global,
    system: &System,
    first: &[Proof],
    k: u32,
    next: &Proof,
) -> Result<String>
    requires ready { IsReady (system_view system.now) }
    requires some { 1 ≤ k }
{
    let base = first_base(alloc, system, first)?;
    let step = step_after(alloc, system, k, next)?;
    Ok(held_text(alloc, &conclude(&base, &step))?)
}

/// `SYSTEM; REFUTATIONS; K; REFUTATION`: the same of the refutations of the base and of the step.
pub fn concluded(alloc: Global, given: &Given, case: &str) -> Result<String> {
    let parts = parts(case);
    let system = ready(given, parts[0])?;
    let next = proof(given, parts[3])?;
    let first = proofs(alloc, given, parts[1])?;
    conclusion(alloc, system, &first, some_states(parts[2]), next)
}

/// The lemma of `TERM; REFUTATION; REFUTATION` behind the first part.
pub fn lemma_in(alloc: Global, given: &Given, system: &System, parts: &[&str; 6]) -> Result<Lemma>
    requires { IsReady (system_view system.now) }
    ensures system { IfOk result (λ l. lemma_machine l ≡ system_view system.now) }
    ensures alone { IfOk result (λ l. lemma_cites l ≡ []) }
{
    let first = proof(given, parts[2])?;
    let next = proof(given, parts[3])?;
    let term = term(alloc, parts[1])?;
    Ok(check_lemma(alloc, system, &[], &term, first, next)?)
}

/// `SYSTEM; TERM; REFUTATION; REFUTATION; PROPERTY; REFUTATION`: the property by the lemma.
pub fn implied(alloc: Global, given: &Given, case: &str) -> Result<String> {
    let parts = parts(case);
    let system = ready(given, parts[0])?;
    let proof = proof(given, parts[5])?;
    let lemma = lemma_in(alloc, given, system, &parts)?;
    let held = conclude_by(alloc, system, &lemma, number(parts[4]), proof);
    Ok(held_text(alloc, &held)?)
}
