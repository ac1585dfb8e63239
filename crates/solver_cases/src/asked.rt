//! What is asked of the first property of a system, and what comes of it.

ghost use Rattle.sys_terms.specs.View.{system_view};
ghost use Rattle.solver_cases.specs.Ready.{IsReady};

use crate::given::{Given, ready};
use crate::parts::{number, parts};
use anyhow::Result;
use cert_rules::{check_base, check_step};
use proof_steps::{Budgets, Proof, Stop};
use smt_solver::{Answer, SolveFault, solve};
use std::alloc::{AllocError, Global};
use sys_terms::{Obligation, PathAnswer, State, System, check_path};

/// Is there a path to this instant at which the property is false?
fn at_instant(
    alloc: Global,
    system: &System,
    instant: u32,
    budgets: Budgets,
) -> Result<Answer, SolveFault>
    requires { IsReady (system_view system.now) }
{
    let what = Obligation::Base {
        property: 0,
        instant,
    };
    solve(alloc, system, &what, &[], budgets)
}

/// Are there states at which the property is true, and a next one at which it is false?
fn after_states(
    alloc: Global,
    system: &System,
    k: u32,
    budgets: Budgets,
) -> Result<Answer, SolveFault>
    requires { IsReady (system_view system.now) }
{
    let what = Obligation::Step { property: 0, k };
    solve(alloc, system, &what, &[], budgets)
}

fn stop_text(alloc: Global, stop: &Stop) -> Result<String, AllocError> {
    match stop {
        Stop::Conflicts(clauses, _) => {
            let count = clauses.len();
            format!(in alloc; "stops after conflicts: {count}")
        }
        Stop::Splits(pairs) => {
            let count = pairs.len();
            format!(in alloc; "stops after splits: {count}")
        }
        Stop::Pivots(start, _) => {
            let count = start.pivots;
            format!(in alloc; "stops after pivots: {count}")
        }
        Stop::Past(_, _) => format!(in alloc; "comes past 128 bits"),
    }
}

fn path_text(alloc: Global, system: &System, states: &[State]) -> Result<String, AllocError>
    requires { IsReady (system_view system.now) }
{
    let count = states.len();
    if count >= 1_000 {
        return format!(in alloc; "a long path");
    }
    match check_path(system, states, 0) {
        PathAnswer::Breaks => format!(in alloc; "a path of {count} breaks it"),
        _ => format!(in alloc; "NO PATH"),
    }
}

fn base_text(
    alloc: Global,
    system: &System,
    last: u32,
    proofs: &[Proof],
) -> Result<String, AllocError>
    requires { IsReady (system_view system.now) }
{
    match check_base(alloc, system, &[], 0, last, proofs) {
        Ok(_) => format!(in alloc; "holds at 0 to {last}"),
        Err(fault) => format!(in alloc; "REFUSED: {fault}"),
    }
}

/// What comes of the instants from 0 to the last one.
fn bases(alloc: Global, system: &System, last: u32, budgets: Budgets) -> Result<String>
    requires { IsReady (system_view system.now) }
{
    let mut proofs = Vec::new(alloc);
    for instant in 0..=last {
        match at_instant(alloc, system, instant, budgets)? {
            Answer::Unsat(proof) => proofs.push(proof)?,
            Answer::Sat(states) => return Ok(path_text(alloc, system, &states)?),
            Answer::Stop(stop) => return Ok(stop_text(alloc, &stop)?),
        }
    }
    Ok(base_text(alloc, system, last, &proofs)?)
}

fn step_text(alloc: Global, system: &System, k: u32, proof: &Proof) -> Result<String, AllocError>
    requires { IsReady (system_view system.now) }
{
    if k == 0 {
        return format!(in alloc; "no state before");
    }
    match check_step(alloc, system, &[], 0, k, proof) {
        Ok(_) => format!(in alloc; "holds after {k}"),
        Err(fault) => format!(in alloc; "REFUSED: {fault}"),
    }
}

/// What comes of the step after k states.
fn step(alloc: Global, system: &System, k: u32, budgets: Budgets) -> Result<String>
    requires { IsReady (system_view system.now) }
{
    match after_states(alloc, system, k, budgets)? {
        Answer::Unsat(proof) => Ok(step_text(alloc, system, k, &proof)?),
        Answer::Sat(states) => {
            let count = states.len();
            Ok(format!(in alloc; "{count} states against it")?)
        }
        Answer::Stop(stop) => Ok(stop_text(alloc, &stop)?),
    }
}

/// More than any case needs.
const AMPLE: Budgets = Budgets {
    conflicts: 100_000,
    splits: 2_000,
    pivots: 200_000,
};

/// The budgets of words such as `splits 1`, and of none.
fn budgets_of(words: &str) -> Budgets {
    let mut budgets = AMPLE;
    let (word, most) = words.split_once(' ').unwrap_or((words, ""));
    let most = u64::from(number(most));
    match word.as_bytes() {
        [b'c', ..] => budgets.conflicts = most,
        [b's', ..] => budgets.splits = most,
        [b'p', ..] => budgets.pivots = most,
        _ => (),
    }
    budgets
}

/// `SYSTEM; to N` or `SYSTEM; after K`, and behind that perhaps a budget, as `splits 1`: what is found of the first
/// property at the instants to N, or after K states.
pub fn solved(alloc: Global, given: &Given, case: &str) -> Result<String> {
    let parts = parts(case);
    let system = ready(given, parts[0])?;
    let budgets = budgets_of(parts[2]);
    let (word, last) = parts[1].split_once(' ').unwrap_or((parts[1], ""));
    if word == "to" {
        bases(alloc, system, number(last), budgets)
    } else {
        step(alloc, system, number(last), budgets)
    }
}
