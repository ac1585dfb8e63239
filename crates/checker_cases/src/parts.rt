//! The parts of a proof, read from words.

use proof_steps::{Atom, Clause, Line, Literal, Source};
use smallvec::SmallVec;
use std::alloc::{AllocError, Global};

/// A number, 0 where the word is none.
pub fn number(word: &str) -> i128 {
    word.parse().unwrap_or(0)
}

/// A number of 32 bits, 0 where the word is none.
pub fn short(word: &str) -> u32 {
    word.parse().unwrap_or(0)
}

/// `BOUND COLUMN:FACTOR ..`: the sum is at most the bound.
pub fn atom(alloc: Global, text: &str) -> Result<Atom, AllocError> {
    let mut terms = SmallVec::new(alloc);
    let mut bound = 0;
    for word in text.split_whitespace() {
        match word.split_once(':') {
            Some((column, factor)) => terms.push((short(column), number(factor)))?,
            None => bound = number(word),
        }
    }
    Ok(Atom { terms, bound })
}

/// `b0` is flag 0, `a1` atom 1, and `-` before it denies it.
fn literal(word: &str) -> Option<Literal> {
    let (stands, name) = match word.strip_prefix('-') {
        Some(name) => (false, name),
        None => (true, word),
    };
    if let Some(flag) = name.strip_prefix('b') {
        return Some(Literal::Flag(short(flag), stands));
    }
    Some(Literal::Atom(short(name.strip_prefix('a')?), stands))
}

/// The literals among the words.
pub fn clause(alloc: Global, text: &str) -> Result<Clause, AllocError> {
    let mut literals = SmallVec::new(alloc);
    for word in text.split_whitespace() {
        if let Some(literal) = literal(word) {
            literals.push(literal)?;
        }
    }
    Ok(Clause { literals })
}

/// The words that are no literals, as hints.
pub fn hints(alloc: Global, text: &str) -> Result<Vec<u32>, AllocError> {
    let mut hints = Vec::new(alloc);
    for word in text.split_whitespace() {
        if literal(word).is_none() {
            hints.push(short(word))?;
        }
    }
    Ok(hints)
}

/// `2*3` is twice the opposite of the step's literal 3, and `2@3` twice its line 3.
fn part(word: &str) -> Option<(i128, Source)> {
    if let Some((factor, place)) = word.split_once('*') {
        return Some((number(factor), Source::Literal(short(place))));
    }
    let (factor, place) = word.split_once('@')?;
    Some((number(factor), Source::Line(short(place))))
}

/// `DIVISOR PART ..`.
pub fn line(alloc: Global, text: &str) -> Result<Line, AllocError> {
    let mut parts = Vec::new(alloc);
    let mut divisor = 0;
    for word in text.split_whitespace() {
        match part(word) {
            Some(part) => parts.push(part)?,
            None => divisor = number(word),
        }
    }
    Ok(Line { parts, divisor })
}
