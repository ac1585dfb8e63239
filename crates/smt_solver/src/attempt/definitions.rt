//! Which clauses of a form define which flag.

use proof_steps::{Clause, Literal};
use std::alloc::{AllocError, Global};

/// Of each variable the places of the clauses that define it, from the first up to one before the other number, and
/// the places of the clauses that define none.
#[derive(Drop)]
pub struct Definitions {
    pub of: Vec<(usize, usize)>,
    pub others: Vec<usize>,
}

// The flag beyond `last` that a definition begins with, and how many clauses it has: a conjunction three,
// an equality and a choice four.
fn begun(clause: &Clause, last: u32) -> Option<(u32, usize)> {
    let literals = clause.literals.as_slice();
    match (literals.first(), literals.last()) {
        (Some(Literal::Flag(n, false)), _) if *n > last => {
            Some((*n, if literals.len() < 3 { 3 } else { 4 }))
        }
        (_, Some(Literal::Flag(n, true))) if *n > last => Some((*n, 4)),
        _ => None,
    }
}

/// The definitions of a form whose flags after the variable `truth` are defined in their order.
pub fn definitions_of(
    alloc: Global,
    clauses: &[Clause],
    variables: usize,
    truth: u32,
) -> Result<Definitions, AllocError> {
    let mut of = vec![in alloc; (0, 0); variables]?;
    let mut others = Vec::new(alloc);
    let mut last = truth;
    let mut end = 0;
    for (place, clause) in clauses.iter().enumerate() {
        if place < end {
            continue;
        }
        match begun(clause, last) {
            Some((flag, count)) => {
                end = place.saturating_add(count);
                last = flag;
                if let Some(range) = of.get_mut(flag as usize) {
                    *range = (place, end);
                }
            }
            None => others.push(place)?,
        }
    }
    Ok(Definitions { of, others })
}
