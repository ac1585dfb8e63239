//! A query of many conditions and a system of a chain of equal flags with the refutation that the last one is false, as
//! large as is wished, for the benchmarks of the clause form and of facts.

use crate::refutations::Refutation;
use crate::terms::term;
use anyhow::{Result, bail};
use cert_rules::check_base;
use cnf_maker::clauses;
use kind_num::Shape;
use proof_steps::Proof;
use std::alloc::{AllocError, Global};
use sys_terms::{Query, System, Term};

/// The parts of a condition of the query.
const PARTS: usize = 15;

/// Whether b is the same as both `x + 1 <= y` and `x = (if b then 3 else y div 2)`.
fn condition(alloc: Global, b: u32, x: u32, y: u32) -> Result<Term, AllocError> {
    let text = format!(in alloc;
        "same b{b} and most sum x{x} 1 x{y} equal x{x} if b{b} 3 quotient x{y} 2"
    )?;
    term(alloc, text.as_str())
}

/// As many flags, and a number more.
fn shapes(alloc: Global, n: u32) -> Result<Vec<Shape>, AllocError> {
    let mut shapes = vec![in alloc; Shape::Flag; n as usize]?;
    shapes.append(&mut vec![in alloc; Shape::Number; n as usize + 1]?)?;
    Ok(shapes)
}

/// n conditions, each over a flag, a number and the number after it.
fn conditions(alloc: Global, n: u32) -> Result<Vec<Term>, AllocError> {
    let mut conditions = Vec::new(alloc);
    for i in 0..n {
        let x = n.saturating_add(i);
        conditions.push(condition(alloc, i, x, x.saturating_add(1))?)?;
    }
    Ok(conditions)
}

/// How many parts the query of n conditions has, and how many clauses, where they are to be made.
pub fn large_form(alloc: Global, n: u32, make: bool) -> Result<String> {
    let query = Query {
        shapes: shapes(alloc, n)?,
        conditions: conditions(alloc, n)?,
    };
    let parts = PARTS.saturating_mul(query.conditions.len());
    let made = if make {
        clauses(alloc, &query)?.clauses.len()
    } else {
        0
    };
    Ok(format!(in alloc; "{parts} parts, {made} clauses")?)
}

/// That this flag is equal to the next.
fn equal_flags(alloc: Global, flag: u32) -> Result<Term, AllocError> {
    let next = flag.saturating_add(1);
    let text = format!(in alloc; "same b{flag} b{next}")?;
    term(alloc, text.as_str())
}

/// The first flag, and that each is equal to the next.
fn push_flags(alloc: Global, here: &mut Vec<Term>, n: u32) -> Result<(), AllocError> {
    here.push(term(alloc, "b0")?)?;
    for flag in 0..n {
        here.push(equal_flags(alloc, flag)?)?;
    }
    Ok(())
}

fn last_flag(alloc: Global, n: u32) -> Result<Term, AllocError> {
    let text = format!(in alloc; "b{n}")?;
    term(alloc, text.as_str())
}

/// The flags 0 to n, the first one true and each equal to the next, with the last one as property.
fn chain(alloc: Global, n: u32) -> Result<System, AllocError> {
    let mut here = Vec::new(alloc);
    push_flags(alloc, &mut here, n)?;
    let properties = vec![in alloc; last_flag(alloc, n)?]?;
    Ok(System {
        shapes: vec![in alloc; Shape::Flag; n as usize + 1]?,
        first: Vec::new(alloc),
        here,
        next: Vec::new(alloc),
        legal: Vec::new(alloc),
        properties,
    })
}

/// The step that gives the flag behind this one, from the clause that gives this one.
fn link(alloc: Global, flag: u32, before: u32) -> Result<String, AllocError> {
    let gives = flag.saturating_mul(5).saturating_add(3);
    let equal = gives.saturating_add(4);
    let next = flag.saturating_add(1);
    format!(in alloc; "derived b{next} {equal} {before} {gives}")
}

/// Each flag from the one before, and then the empty clause.
///
/// In the clause form of the base query clause 1 is the truth, 2 the first flag, and each pair of flags has five clauses:
/// four of the flag that says that they are equal, of which the first gives the second flag from the first one, and that
/// flag itself. The last clause denies the last flag.
fn take_chain(alloc: Global, refutation: &mut Refutation, n: u32) -> Result<(), AllocError> {
    let denied = n.saturating_mul(5).saturating_add(3);
    let mut before = 2;
    for flag in 0..n {
        refutation.take(alloc, link(alloc, flag, before)?.as_str())?;
        before = denied.saturating_add(flag).saturating_add(1);
    }
    let last = format!(in alloc; "derived {before} {denied}")?;
    refutation.take(alloc, last.as_str())
}

fn chain_proof(alloc: Global, n: u32) -> Result<Proof, AllocError> {
    let mut refutation = Refutation::new(alloc, "a chain")?;
    take_chain(alloc, &mut refutation, n)?;
    Ok(refutation.proof)
}

/// How many lines of the refutation are checked, where it makes a base.
fn checked(alloc: Global, system: &System, proof: Proof) -> Result<usize> {
    if !(system.is_mild() && system.shapes.len() < 1_000_000) {
        bail!("the system is not ready");
    }
    let proofs = vec![in alloc; proof]?;
    let base = check_base(alloc, system, &[], 0, 0, &proofs)?;
    Ok(match base.proofs() {
        [proof] => proof.steps.len(),
        _ => 0,
    })
}

/// How many lines of the base of a chain of so many equal flags are checked, where it is to be checked.
pub fn large_base(alloc: Global, n: u32, check: bool) -> Result<String> {
    let system = chain(alloc, n)?;
    let proof = chain_proof(alloc, n)?;
    let lines = if check {
        checked(alloc, &system, proof)?
    } else {
        0
    };
    Ok(format!(in alloc; "{lines} lines checked")?)
}
