//! What the entries of a book say.

use anyhow::Result;
use board_core::{Book, Fact, Kept};
use cert_rules::Cited;
use std::alloc::Global;
use sys_terms::{Entry, Obligation, State};

/// The places of the cited lemmas.
fn cites_text(alloc: Global, cites: &[Cited]) -> Result<String> {
    let mut text = String::new(alloc);
    for cited in cites {
        let place = cited.place;
        text = format!(in alloc; "{text} citing {place}")?;
    }
    Ok(text)
}

fn entry_text(alloc: Global, fact: Fact<'_>) -> Result<String> {
    Ok(match fact {
        Fact::Base(base) => {
            let instant = base.instant();
            let cites = cites_text(alloc, base.cites())?;
            format!(in alloc; "base to {instant}{cites}")?
        }
        Fact::Step(step) => {
            let k = step.k();
            let cites = cites_text(alloc, step.cites())?;
            format!(in alloc; "step by {k}{cites}")?
        }
        Fact::Lemma(lemma) => {
            let cites = cites_text(alloc, lemma.cites())?;
            format!(in alloc; "lemma{cites}")?
        }
        Fact::Held(_, first, second) => format!(in alloc; "held by {first} and {second}")?,
        Fact::Broken(_, path) => {
            let count = path.len();
            format!(in alloc; "broken by {count} states")?
        }
        Fact::Stuck(_, path, front) => {
            let count = path.len();
            format!(in alloc; "stuck at {count} states with lemmas below {front}")?
        }
        Fact::Spent(_, _, _, _) => format!(in alloc; "spent")?,
    })
}

/// The entries with their places.
pub fn entries_text(alloc: Global, book: &Book) -> Result<String> {
    let mut text = String::new(alloc);
    for place in 0..book.count() {
        let entry = entry_text(alloc, book.entry(place))?;
        text = format!(in alloc; "{text}; {place} {entry}")?;
    }
    Ok(text)
}

/// The first number of each of these states.
fn numbers_text(alloc: Global, path: &[State]) -> Result<String> {
    let mut text = String::new(alloc);
    for state in path {
        if let Some(Entry::Number(number)) = state.values.first() {
            text = format!(in alloc; "{text} {number}")?;
        }
    }
    Ok(text)
}

/// The states that a stuck entry keeps.
fn states_in<'a>(fact: Fact<'a>) -> Option<&'a [State]> {
    match fact {
        Fact::Stuck(_, path, _) => Some(path),
        Fact::Base(_) | Fact::Step(_) | Fact::Lemma(_) => None,
        Fact::Held(_, _, _) | Fact::Broken(_, _) | Fact::Spent(_, _, _, _) => None,
    }
}

/// The first number of each state that the first stuck entry keeps.
pub fn states_text(alloc: Global, book: &Book) -> Result<String> {
    for place in 0..book.count() {
        if let Some(path) = states_in(book.entry(place)) {
            let numbers = numbers_text(alloc, path)?;
            return Ok(format!(in alloc; "; kept:{numbers}")?);
        }
    }
    Ok(format!(in alloc; "; NOTHING KEPT")?)
}

/// The query that is kept.
fn query_text(alloc: Global, kept: &Kept) -> Result<String> {
    Ok(match &kept.query {
        Some((Obligation::Base { instant, .. }, _)) => format!(in alloc; "at instant {instant}")?,
        Some((Obligation::Step { k, .. }, _)) => format!(in alloc; "at the step by {k}")?,
        Some((Obligation::Open { states, .. }, _)) => {
            let instant = states.saturating_sub(1);
            format!(in alloc; "at the narrow query of instant {instant}")?
        }
        Some(_) => format!(in alloc; "AT ANOTHER QUERY")?,
        None => format!(in alloc; "AT NO QUERY")?,
    })
}

/// What is kept with a cause, and of which engine it is.
fn kept_in<'a>(fact: Fact<'a>) -> Option<(u32, &'a Kept)> {
    match fact {
        Fact::Spent(engine, _, _, kept) => Some((engine, kept)),
        Fact::Base(_) | Fact::Step(_) | Fact::Lemma(_) => None,
        Fact::Held(_, _, _) | Fact::Broken(_, _) | Fact::Stuck(_, _, _) => None,
    }
}

/// The query that is kept with the engine's first cause.
pub fn asked_text(alloc: Global, book: &Book, engine: u32) -> Result<String> {
    for place in 0..book.count() {
        if let Some((by, kept)) = kept_in(book.entry(place)) {
            if by == engine {
                return query_text(alloc, kept);
            }
        }
    }
    Ok(format!(in alloc; "WITHOUT A CAUSE")?)
}
