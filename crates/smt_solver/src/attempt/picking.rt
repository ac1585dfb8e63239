//! Which atoms matter to an assignment: true literals by which all clauses of the form that count are true.

use crate::attempt::definitions::Definitions;
use proof_steps::{Clause, Literal};
use sat_core::Search;
use std::alloc::{AllocError, Global};

/// What is picked so far, and the places of clauses that still need a true literal.
#[derive(Drop)]
struct Picks {
    flags: Vec<bool>,
    atoms: Vec<bool>,
    numbers: Vec<u32>,
    waiting: Vec<usize>,
}

// What picking the literal costs further: nothing where it is picked, or a flag of the query.
fn cost(picks: &Picks, truth: u32, literal: Literal) -> u32 {
    match literal {
        Literal::Flag(n, _) => match picks.flags.get(n as usize) {
            Some(false) if n > truth => 2,
            _ => 0,
        },
        Literal::Atom(n, _) => match picks.atoms.get((n as usize).wrapping_sub(1)) {
            Some(false) => 1,
            _ => 0,
        },
    }
}

// The true literal of the clause that costs least.
fn cheapest(search: &Search, picks: &Picks, truth: u32, literals: &[Literal]) -> Option<Literal> {
    let mut best = None;
    let mut least = u32::MAX;
    for literal in literals {
        if search.value(*literal) == Some(true) {
            let cost = cost(picks, truth, *literal);
            if cost < least {
                least = cost;
                best = Some(*literal);
            }
        }
    }
    best
}

fn has(literals: &[Literal], literal: Literal) -> bool {
    for other in literals {
        if *other == literal {
            return true;
        }
    }
    false
}

// The clauses of the flag's definition that are not true by the flag wait.
fn open_definition(
    picks: &mut Picks,
    definitions: &Definitions,
    clauses: &[Clause],
    flag: u32,
    sign: bool,
) -> Result<(), AllocError> {
    let (from, to) = match definitions.of.get(flag as usize) {
        Some(range) => *range,
        None => return Ok(()),
    };
    for place in from..to {
        if let Some(clause) = clauses.get(place) {
            if !has(clause.literals.as_slice(), Literal::Flag(flag, sign)) {
                picks.waiting.push(place)?;
            }
        }
    }
    Ok(())
}

fn pick(
    picks: &mut Picks,
    definitions: &Definitions,
    clauses: &[Clause],
    literal: Literal,
) -> Result<(), AllocError> {
    match literal {
        Literal::Flag(n, sign) => {
            if let Some(picked) = picks.flags.get_mut(n as usize) {
                if !*picked {
                    *picked = true;
                    open_definition(picks, definitions, clauses, n, sign)?;
                }
            }
        }
        Literal::Atom(n, _) => {
            if let Some(picked) = picks.atoms.get_mut((n as usize).wrapping_sub(1)) {
                if !*picked {
                    *picked = true;
                    picks.numbers.push(n)?;
                }
            }
        }
    }
    Ok(())
}

/// The numbers of the form's atoms that matter: where all bounds that these mean are met, so are the query's
/// conditions.
pub fn picked(
    alloc: Global,
    search: &Search,
    definitions: &Definitions,
    clauses: &[Clause],
    atoms: usize,
    truth: u32,
) -> Result<Vec<u32>, AllocError> {
    let mut picks = Picks {
        flags: vec![in alloc; false; definitions.of.len()]?,
        atoms: vec![in alloc; false; atoms]?,
        numbers: Vec::new(alloc),
        waiting: Vec::from_slice(alloc, &definitions.others)?,
    };
    for _clause in 0..clauses.len() {
        let place = match picks.waiting.pop() {
            Some(place) => place,
            None => break,
        };
        if let Some(clause) = clauses.get(place) {
            if let Some(literal) = cheapest(search, &picks, truth, clause.literals.as_slice()) {
                pick(&mut picks, definitions, clauses, literal)?;
            }
        }
    }
    Ok(picks.numbers)
}
