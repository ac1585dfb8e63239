//! Clauses that are added to a search which has answered, one after the other.

use crate::clauses::{form, literal_of};
use crate::followed::Extended;
use crate::trial::word;
use anyhow::Result;
use cnf_maker::Cnf;
use proof_steps::{Clause, Literal};
use sat_core::Found;
use smallvec::SmallVec;
use std::alloc::Global;

/// A clause of two literals, and the literal whose value is asked after it.
#[derive(Clone, Copy)]
struct Addition {
    first: Literal,
    second: Literal,
    asked: Literal,
}

fn flag(number: u32, positive: bool) -> Literal {
    Literal::Flag(number, positive)
}

fn atom(positive: bool) -> Literal {
    Literal::Atom(0, positive)
}

fn pair(alloc: Global, first: Literal, second: Literal) -> Result<Clause> {
    let mut literals = SmallVec::new(alloc);
    literals.push(first)?;
    literals.push(second)?;
    Ok(Clause { literals })
}

/// Behind `0 or 1`: not 0, said twice; a new flag or its opposite; not 1 or a new flag; an atom that the form lacks, said
/// twice; and not that flag or not that atom, so that no values are left.
fn additions() -> [Addition; 5] {
    let (no, opposite) = (flag(0, false), flag(2, false));
    [
        Addition {
            first: no,
            second: no,
            asked: flag(1, true),
        },
        Addition {
            first: flag(2, true),
            second: opposite,
            asked: flag(1, true),
        },
        Addition {
            first: flag(1, false),
            second: flag(3, true),
            asked: flag(3, true),
        },
        Addition {
            first: atom(true),
            second: atom(true),
            asked: atom(true),
        },
        Addition {
            first: flag(3, false),
            second: atom(false),
            asked: flag(3, true),
        },
    ]
}

/// The form `0 or 1`.
fn either(alloc: Global) -> Result<Cnf> {
    let mut clauses = Vec::new(alloc);
    clauses.push(pair(alloc, literal_of(1), literal_of(2))?)?;
    form(alloc, 2, clauses)
}

fn truth(value: Option<bool>) -> &'static str {
    match value {
        Some(true) => "true",
        Some(false) => "false",
        None => "open",
    }
}

/// The word of an answer; none is given where the checker refuses a step of the log.
fn said(found: Option<Found>) -> &'static str {
    match found {
        Some(found) => word(found),
        None => "a step that is not taken",
    }
}

/// The answer after this clause more, and the value of the literal that is asked.
fn after(
    alloc: Global,
    form: &Cnf,
    extended: &mut Extended,
    addition: &Addition,
) -> Result<(&'static str, &'static str)> {
    extended.add(alloc, &pair(alloc, addition.first, addition.second)?)?;
    let answer = said(extended.answer(alloc, form)?);
    Ok((answer, truth(extended.search.value(addition.asked))))
}

/// The answers of a search that has answered once, after each of the additions.
fn answers(alloc: Global, form: &Cnf, extended: &mut Extended) -> Result<String> {
    let _first = extended.answer(alloc, form)?;
    let mut text = String::new(alloc);
    for addition in additions() {
        let (answer, value) = after(alloc, form, extended, &addition)?;
        text = format!(in alloc; "{text} {answer} {value};")?;
    }
    Ok(text)
}

/// The answers after each of the additions, where the checker takes each step of the log.
pub fn additions_text(alloc: Global) -> Result<String> {
    let form = either(alloc)?;
    let mut extended = Extended::new(alloc, &form)?;
    answers(alloc, &form, &mut extended)
}

/// The first answer of a search, and the last one where a clause is added in between.
fn first_and_last(
    alloc: Global,
    form: &Cnf,
    extended: &mut Extended,
) -> Result<(&'static str, &'static str)> {
    let first = extended.search.decide_or_conflict(alloc)?;
    extended.add(alloc, &pair(alloc, literal_of(1), literal_of(1))?)?;
    let last = extended.answer(alloc, form)?;
    Ok((word(first), said(last)))
}

/// The first answer over a form, and the last one where a clause that its first one has is added in between and the
/// checker takes each step of the log.
pub fn added_before_learning(alloc: Global, form: &Cnf) -> Result<(&'static str, &'static str)> {
    let mut extended = Extended::new(alloc, form)?;
    first_and_last(alloc, form, &mut extended)
}
