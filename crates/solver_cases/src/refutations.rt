//! The refutations of the cases, read from a text.

use crate::parts::{long_number, number};
use proof_steps::{Clause, Line, Literal, Proof, Source, Step};
use smallvec::SmallVec;
use std::alloc::{AllocError, Global};

/// A refutation and its name. The lines are those of the theory step that comes next.
#[derive(Drop)]
pub struct Refutation {
    pub name: String,
    pub proof: Proof,
    pub lines: Vec<Line>,
}

impl Refutation {
    /// One without steps.
    pub fn new(alloc: Global, name: &str) -> Result<Refutation, AllocError> {
        Ok(Refutation {
            name: String::from_str(alloc, name)?,
            proof: Proof {
                atoms: Vec::new(alloc),
                steps: Vec::new(alloc),
            },
            lines: Vec::new(alloc),
        })
    }

    /// Takes a line: `line`, `theory` or `derived` with a part of the proof. Other lines say nothing.
    pub fn take(&mut self, alloc: Global, text: &str) -> Result<(), AllocError> {
        let (word, rest) = text.split_once(' ').unwrap_or((text, ""));
        match word.as_bytes() {
            [b'l', ..] => self.lines.push(line(alloc, rest)?)?,
            [b't', ..] => self.take_theory(alloc, rest)?,
            [b'd', ..] => self.proof.steps.push(derived(alloc, rest)?)?,
            _ => (),
        }
        Ok(())
    }

    fn take_theory(&mut self, alloc: Global, text: &str) -> Result<(), AllocError> {
        let clause = clause(alloc, text)?;
        let mut lines = Vec::new(alloc);
        lines.append(&mut self.lines)?;
        Ok(self.proof.steps.push(Step::Theory { clause, lines })?)
    }
}

/// `b0` is flag 0, `a1` atom 1, and `-` before it denies it.
fn literal(word: &str) -> Option<Literal> {
    let name = word.trim_start_matches('-');
    let stands = name.len() == word.len();
    match name.as_bytes() {
        [b'b', ..] => Some(Literal::Flag(number(name.trim_start_matches('b')), stands)),
        [b'a', ..] => Some(Literal::Atom(number(name.trim_start_matches('a')), stands)),
        _ => None,
    }
}

/// The literals among the words.
fn clause(alloc: Global, text: &str) -> Result<Clause, AllocError> {
    let mut literals = SmallVec::new(alloc);
    for word in text.split_whitespace() {
        if let Some(literal) = literal(word) {
            literals.push(literal)?;
        }
    }
    Ok(Clause { literals })
}

/// The words that are no literals, as hints.
fn hints(alloc: Global, text: &str) -> Result<Vec<u32>, AllocError> {
    let mut hints = Vec::new(alloc);
    for word in text.split_whitespace() {
        if literal(word).is_none() {
            hints.push(number(word))?;
        }
    }
    Ok(hints)
}

/// A step of a clause and the hints for it.
fn derived(alloc: Global, text: &str) -> Result<Step, AllocError> {
    let clause = clause(alloc, text)?;
    let hints = hints(alloc, text)?;
    Ok(Step::Derived { clause, hints })
}

/// `2*3` is twice the opposite of the step's literal 3.
fn part(word: &str) -> (i128, Source) {
    let (factor, place) = word.split_once('*').unwrap_or((word, ""));
    (long_number(factor), Source::Literal(number(place)))
}

/// The parts of a line. It isn't divided.
fn line(alloc: Global, text: &str) -> Result<Line, AllocError> {
    let mut parts = Vec::new(alloc);
    for word in text.split_whitespace() {
        parts.push(part(word))?;
    }
    Ok(Line { parts, divisor: 1 })
}

/// The refutations of a text: `refutation` with a name begins one.
pub fn refutations_of(alloc: Global, text: &str) -> Result<Vec<Refutation>, AllocError> {
    let mut refutations: Vec<Refutation> = Vec::new(alloc);
    for line in text.lines() {
        if let Some(name) = line.strip_prefix("refutation ") {
            refutations.push(Refutation::new(alloc, name)?)?;
        } else if let Some(refutation) = refutations.last_mut() {
            refutation.take(alloc, line)?;
        }
    }
    Ok(refutations)
}
