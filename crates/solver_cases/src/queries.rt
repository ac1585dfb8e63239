//! Queries, and their clause forms.

use crate::form_text::form_text;
use crate::given::{Given, ready};
use crate::parts::{cut, number, parts};
use crate::term_text::term_text;
use crate::terms::term;
use anyhow::{Result, bail};
use cnf_maker::clauses;
use kind_num::Shape;
use std::alloc::{AllocError, Global};
use sys_terms::{Obligation, Query, QueryFault, Term, obligation};

/// A number, and what stands behind it and a blank.
fn numbered(text: &str) -> (u32, &str) {
    let (word, rest) = text.split_once(' ').unwrap_or((text, ""));
    (number(word), rest)
}

fn place(alloc: Global, text: &str) -> Result<(u32, Term), AllocError> {
    let (instant, rest) = numbered(text);
    Ok((instant, term(alloc, rest)?))
}

/// The places of `1 b0, 0 true`: instants, each with a term that is to be true there.
fn places(alloc: Global, text: &str) -> Result<Vec<(u32, Term)>, AllocError> {
    let mut places = Vec::new(alloc);
    for part in text.split(", ") {
        places.push(place(alloc, part)?)?;
    }
    Ok(places)
}

fn base_of(text: &str) -> Obligation {
    let (property, rest) = numbered(text);
    Obligation::Base {
        property,
        instant: number(rest),
    }
}

fn step_of(text: &str) -> Obligation {
    let (property, rest) = numbered(text);
    Obligation::Step {
        property,
        k: number(rest),
    }
}

fn implied_of(alloc: Global, text: &str) -> Result<Obligation, AllocError> {
    let (property, lemma) = place(alloc, text)?;
    Ok(Obligation::Implied { lemma, property })
}

fn open_of(alloc: Global, text: &str) -> Result<Obligation, AllocError> {
    let (states, rest) = numbered(text);
    Ok(Obligation::Open {
        states,
        from_first: false,
        at: places(alloc, rest)?,
    })
}

/// The obligation of a text: `base 0 1` (property 0 at instant 1), `step 0 1` (after 1 state), `first A` and `next A` (A is a
/// lemma), `implied 0 A` (property 0 by the lemma A) and `open 2 1 A, 0 B` (two states, A at instant 1 and B at 0).
fn obligation_of(alloc: Global, text: &str) -> Result<Obligation, AllocError> {
    let (word, rest) = text.split_once(' ').unwrap_or((text, ""));
    match word.as_bytes() {
        [b'b', ..] => Ok(base_of(rest)),
        [b's', ..] => Ok(step_of(rest)),
        [b'f', ..] => Ok(Obligation::LemmaFirst(term(alloc, rest)?)),
        [b'n', ..] => Ok(Obligation::LemmaNext(term(alloc, rest)?)),
        [b'i', ..] => implied_of(alloc, rest),
        _ => open_of(alloc, rest),
    }
}

/// The conditions, each behind a semicolon.
fn conditions_text(alloc: Global, query: &Query) -> Result<String, AllocError> {
    let mut text = format!(in alloc; "{} variables", query.shapes.len())?;
    for condition in &query.conditions {
        text.push_str("; ")?;
        text.push_str(term_text(alloc, condition)?.as_str())?;
    }
    Ok(text)
}

fn query_text(alloc: Global, query: &Result<Query, QueryFault>) -> Result<String, AllocError> {
    match query {
        Ok(query) => conditions_text(alloc, &query.copied(alloc)?),
        Err(fault) => format!(in alloc; "{fault:?}"),
    }
}

/// `SYSTEM; OBLIGATION; TERM`: the conditions of the obligation, where the term is cited.
pub fn query(alloc: Global, given: &Given, case: &str) -> Result<String> {
    let parts = parts(case);
    let system = ready(given, parts[0])?;
    let what = obligation_of(alloc, parts[1])?.copied(alloc)?;
    let cite = term(alloc, parts[2])?;
    if !(what.is_asked(system) && cite.fits(&system.shapes) && cite.is_present()) {
        bail!("this is not asked");
    }
    let query = obligation(alloc, system, &what, &[cite]);
    Ok(query_text(alloc, &query)?)
}

/// `SYSTEM; OBLIGATION`: the clause form of its query.
pub fn form(alloc: Global, given: &Given, case: &str) -> Result<String> {
    let (system, what) = cut(case);
    let system = ready(given, system)?;
    let what = obligation_of(alloc, what)?;
    if !what.is_asked(system) {
        bail!("this is not asked");
    }
    let query = obligation(alloc, system, &what, &[])?;
    Ok(form_text(alloc, &clauses(alloc, &query))?)
}

/// Three flags and two numbers.
const SHAPES: [Shape; 5] = [
    Shape::Flag,
    Shape::Flag,
    Shape::Flag,
    Shape::Number,
    Shape::Number,
];

fn over_shapes(alloc: Global, condition: Term) -> Result<Query, AllocError> {
    let conditions = vec![in alloc; condition]?;
    Ok(Query {
        shapes: Vec::from_slice(alloc, &SHAPES)?,
        conditions,
    })
}

/// `TERM`: its clause form over three flags and two numbers.
pub fn condition(alloc: Global, case: &str) -> Result<String, AllocError> {
    let query = over_shapes(alloc, term(alloc, case)?)?;
    form_text(alloc, &clauses(alloc, &query))
}
