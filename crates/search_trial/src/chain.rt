//! A long chain of implications, of which each clause is looked at once at most.

use crate::clauses::{form, literal_of};
use crate::trial::{search_of, word};
use anyhow::Result;
use cnf_maker::Cnf;
use proof_steps::{Clause, Literal};
use smallvec::SmallVec;
use std::alloc::Global;

/// The chain has so many implications.
const LENGTH: u32 = 9_999;

fn clause(alloc: Global, literals: &[Literal]) -> Result<Clause> {
    Ok(Clause {
        literals: SmallVec::from_slice(alloc, literals)?,
    })
}

/// The clauses `-b(i) b(i+1)`, the last first, and then the clause `b0`.
fn chain(alloc: Global) -> Result<Cnf> {
    let mut clauses = Vec::new(alloc);
    for back in 0..LENGTH {
        let number = LENGTH.saturating_sub(back) as i32;
        let literals = [literal_of(-number), literal_of(number.saturating_add(1))];
        clauses.push(clause(alloc, &literals)?)?;
    }
    clauses.push(clause(alloc, &[literal_of(1)])?)?;
    form(alloc, LENGTH.saturating_add(1), clauses)
}

/// The first answer over the chain, and by how much the looks rise.
pub fn chain_looks(alloc: Global) -> Result<(&'static str, u64)> {
    let form = chain(alloc)?;
    let mut search = search_of(alloc, &form)?;
    let before = search.looks();
    let found = search.decide_or_conflict(alloc)?;
    Ok((word(found), search.looks().saturating_sub(before)))
}
