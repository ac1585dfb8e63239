use crate::brute::solutions;
use crate::clauses::form;
use crate::plain::plainly;
use crate::trial::{Report, counted, tried};
use anyhow::Result;
use cnf_maker::Cnf;
use proof_steps::{Clause, Literal};
use smallvec::SmallVec;
use std::alloc::Global;

/// The next number of a linear congruence, after Knuth.
fn next(state: &mut u64) -> u32 {
    *state = state
        .wrapping_mul(6_364_136_223_846_793_005)
        .wrapping_add(1_442_695_040_888_963_407);
    (*state >> 33) as u32
}

/// One to four literals, which may be the same or opposite.
fn random_clause(alloc: Global, state: &mut u64, flags: u32) -> Result<Clause> {
    let count = next(state) % 4 + 1;
    let mut literals = SmallVec::new(alloc);
    for _ in 0..count {
        let number = next(state) % flags.max(1);
        literals.push(Literal::Flag(number, next(state) % 2 == 0))?;
    }
    Ok(Clause { literals })
}

fn random_form(alloc: Global, state: &mut u64, flags: u32) -> Result<Cnf> {
    let count = next(state) % 40 + 1;
    let mut clauses = Vec::new(alloc);
    for _ in 0..count {
        clauses.push(random_clause(alloc, state, flags)?)?;
    }
    form(alloc, flags, clauses)
}

/// Whether the search answers a form as the slow program does.
fn is_right(report: Report, solutions: u32) -> bool {
    if solutions > 0 {
        report.answer == "full" && report.shown == "solved"
    } else {
        report.answer == "empty" && report.shown == "log accepted"
    }
}

/// How many of so many random forms are answered as all assignments answer them, also where each
/// solution that is found is excluded by a clause more, and the checker takes the logs; and how many as the plain search answers them.
pub fn random_forms(alloc: Global, count: u32) -> Result<(u32, u32)> {
    let mut state = 1;
    let mut right = 0u32;
    let mut alike = 0u32;
    for _ in 0..count {
        let flags = next(&mut state) % 8 + 1;
        let form = random_form(alloc, &mut state, flags)?;
        let solutions = solutions(&form, flags);
        let report = tried(alloc, &form)?;
        if is_right(report, solutions) && counted(alloc, &form, flags)? == Some(solutions) {
            right = right.saturating_add(1);
        }
        let (met, _) = plainly(alloc, &form)?;
        if met == (report.answer == "full") {
            alike = alike.saturating_add(1);
        }
    }
    Ok((right, alike))
}
