use crate::followed::Extended;
use anyhow::{Result, bail};
use cnf_maker::Cnf;
use proof_checker::{Fault, check};
use proof_steps::{Clause, Literal, Proof, Step};
use sat_core::{Found, Search};
use smallvec::SmallVec;
use std::alloc::Global;

/// What a search over a form came to: its first answer, its last, and what the assignment or the
/// log shows.
#[derive(Clone, Copy)]
pub struct Report {
    pub first: &'static str,
    pub answer: &'static str,
    pub shown: &'static str,
}

/// The word for an answer.
pub fn word(found: Found) -> &'static str {
    match found {
        Found::Full => "full",
        Found::Conflict => "conflict",
        Found::Empty => "empty",
    }
}

/// Searches until all variables have values or the empty clause is derived.
pub fn searched(alloc: Global, search: &mut Search) -> Result<Found> {
    for _ in 0..10_000_000u32 {
        match search.decide_or_conflict(alloc)? {
            Found::Conflict => search.learn(alloc)?,
            found => return Ok(found),
        }
    }
    bail!("ten million conflicts");
}

/// The clause of a step.
pub fn clause_of(step: &Step) -> &Clause {
    match step {
        Step::Derived { clause, .. } => clause,
        Step::Theory { clause, .. } => clause,
    }
}

fn has(clause: &Clause, literal: Literal) -> bool {
    for other in clause.literals.as_slice() {
        if *other == literal {
            return true;
        }
    }
    false
}

/// Whether a clause has all literals of another.
fn includes(clause: &Clause, other: &Clause) -> bool {
    for literal in other.literals.as_slice() {
        if !has(clause, *literal) {
            return false;
        }
    }
    true
}

fn includes_any(clause: &Clause, others: &[Step]) -> bool {
    for other in others {
        if includes(clause, clause_of(other)) {
            return true;
        }
    }
    false
}

/// Whether no clause of the log contains one before it.
fn is_new(log: &[Step]) -> bool {
    for i in 0..log.len() {
        if includes_any(clause_of(&log[i]), &log[..i]) {
            return false;
        }
    }
    true
}

/// A proof of these steps.
pub fn copied(alloc: Global, steps: &[Step]) -> Result<Proof> {
    let mut list = Vec::new(alloc);
    for step in steps {
        list.push(step.copied(alloc)?)?;
    }
    Ok(Proof {
        atoms: Vec::new(alloc),
        steps: list,
    })
}

/// Whether the values give each clause of the form a true literal.
fn solves(search: &Search, form: &Cnf) -> bool {
    for clause in &form.clauses {
        let mut some = false;
        for literal in clause.literals.as_slice() {
            if search.value(*literal) == Some(true) {
                some = true;
            }
        }
        if !some {
            return false;
        }
    }
    true
}

/// Whether all literals of the clause are one.
fn is_short(clause: &Clause) -> bool {
    let mut first = None;
    for literal in clause.literals.as_slice() {
        if first == None {
            first = Some(*literal);
        }
        if first != Some(*literal) {
            return false;
        }
    }
    true
}

/// Whether these are two different literals of the clause, or none where it has no such.
fn are_watched(clause: &Clause, watched: Option<(Literal, Literal)>) -> bool {
    match watched {
        Some((first, second)) => first != second && has(clause, first) && has(clause, second),
        None => is_short(clause),
    }
}

/// Whether the other literal is true where one is false.
fn is_beside(search: &Search, literal: Literal, other: Literal) -> bool {
    search.value(literal) != Some(false) || search.value(other) == Some(true)
}

/// Whether of two watched literals one is true where the other is false.
fn are_beside(search: &Search, watched: Option<(Literal, Literal)>) -> bool {
    match watched {
        Some((first, second)) => {
            is_beside(search, first, second) && is_beside(search, second, first)
        }
        None => true,
    }
}

/// Whether each clause of the form watches two different literals, where it has two, and these stand
/// as they are to after all variables have values.
fn watches_all(search: &Search, form: &Cnf) -> bool {
    let mut number = 0u32;
    for clause in &form.clauses {
        number = number.saturating_add(1);
        let watched = search.watches(number);
        if !are_watched(clause, watched) || !are_beside(search, watched) {
            return false;
        }
    }
    search.watches(0) == None
}

/// What the assignment shows after all variables have values.
fn met(search: &Search, form: &Cnf) -> &'static str {
    if solves(search, form) && watches_all(search, form) {
        "solved"
    } else {
        "NOT SOLVED"
    }
}

/// What the log, and where there is one the assignment, shows. The checker takes each step of the log, and misses the
/// empty clause where there is an assignment.
fn shown(alloc: Global, search: &Search, form: &Cnf, found: Found) -> Result<&'static str> {
    if !is_new(search.log()) {
        return Ok("NOT NEW");
    }
    let proof = copied(alloc, search.log())?;
    Ok(
        match check(alloc, &form.shapes, &form.atoms, &form.clauses, &proof) {
            Ok(_) if found == Found::Empty => "log accepted",
            Err(Fault::Open) if found == Found::Full => met(search, form),
            _ => "LOG REFUSED",
        },
    )
}

/// The search over a form of few enough clauses.
pub fn search_of(alloc: Global, form: &Cnf) -> Result<Search> {
    if form.clauses.len() > 1_000_000
        || form.atoms.len() > 1_000_000
        || form.shapes.len() > 1_000_000
    {
        bail!("too many clauses");
    }
    Ok(Search::new(alloc, form)?)
}

/// The clause that excludes the values which the flags have.
fn excluded(alloc: Global, search: &Search, flags: u32) -> Result<Clause> {
    let mut literals = SmallVec::new(alloc);
    for number in 0..flags {
        let is_true = search.value(Literal::Flag(number, true)) == Some(true);
        literals.push(Literal::Flag(number, !is_true))?;
    }
    Ok(Clause { literals })
}

/// Adds the clause that excludes the values which the flags have.
fn exclude(alloc: Global, flags: u32, extended: &mut Extended) -> Result<()> {
    let clause = excluded(alloc, &extended.search, flags)?;
    extended.add(alloc, &clause)
}

/// How many solutions a search finds from now on, where each one is then excluded.
fn count_on(alloc: Global, form: &Cnf, flags: u32, extended: &mut Extended) -> Result<Option<u32>> {
    for count in 0..1_000u32 {
        match extended.answer(alloc, form)? {
            None => return Ok(None),
            Some(Found::Empty) => return Ok(Some(count)),
            Some(_) => exclude(alloc, flags, extended)?,
        }
    }
    bail!("a thousand solutions");
}

/// How many solutions are found where each one is then excluded by a clause more; none where the checker refuses a
/// step of the log.
pub fn counted(alloc: Global, form: &Cnf, flags: u32) -> Result<Option<u32>> {
    let mut extended = Extended::new(alloc, form)?;
    count_on(alloc, form, flags, &mut extended)
}

/// Searches through a form of few enough clauses.
pub fn tried(alloc: Global, form: &Cnf) -> Result<Report> {
    let mut search = search_of(alloc, form)?;
    let first = search.decide_or_conflict(alloc)?;
    if first == Found::Conflict {
        search.learn(alloc)?;
    }
    let found = searched(alloc, &mut search)?;
    Ok(Report {
        first: word(first),
        answer: word(found),
        shown: shown(alloc, &search, form, found)?,
    })
}

/// The answer of a search through a form of few enough clauses, and its conflicts.
pub fn answered(alloc: Global, form: &Cnf) -> Result<(&'static str, u64)> {
    let mut search = search_of(alloc, form)?;
    let found = searched(alloc, &mut search)?;
    let answer = if found == Found::Full {
        "satisfiable"
    } else {
        "unsatisfiable"
    };
    Ok((answer, search.conflicts()))
}
