//! Terms, read from words: each word stands before its operands.

use anyhow::{Result, bail};
use std::alloc::Global;
use sys_terms::{Num, Term, Var};

/// How deep a term may be nested.
pub const DEEPEST: u32 = 100;

/// The words that are still to be read, the last one first.
pub type Words<'a> = Vec<&'a str>;

/// The words of a text.
pub fn words_of<'a>(alloc: Global, text: &'a str) -> Result<Words<'a>> {
    let mut words: Words<'a> = text.split_whitespace().collect(alloc)?;
    words.reverse();
    Ok(words)
}

fn next_word<'a>(words: &mut Words<'a>) -> Result<&'a str> {
    match words.pop() {
        Some(word) => Ok(word),
        None => bail!("a word is missing"),
    }
}

/// The variable of this number; behind an apostrophe its value at the next state.
fn variable(word: &str) -> Result<Var> {
    Ok(match word.strip_suffix('\'') {
        Some(number) => Var {
            number: number.parse()?,
            next: true,
        },
        None => Var {
            number: word.parse()?,
            next: false,
        },
    })
}

#[cycle(terms)]
fn boxed(alloc: Global, words: &mut Words<'_>, depth: u32) -> Result<Box<Term>> {
    let term = term(alloc, words, depth)?;
    Ok(Box::new(alloc, term)?)
}

#[cycle(terms)]
fn boxed_number(alloc: Global, words: &mut Words<'_>, depth: u32) -> Result<Box<Num>> {
    let number = number(alloc, words, depth)?;
    Ok(Box::new(alloc, number)?)
}

/// Two terms.
#[cycle(terms)]
fn pair(alloc: Global, words: &mut Words<'_>, depth: u32) -> Result<(Box<Term>, Box<Term>)> {
    let first = boxed(alloc, words, depth)?;
    let second = boxed(alloc, words, depth)?;
    Ok((first, second))
}

/// Two numbers.
#[cycle(terms)]
fn number_pair(alloc: Global, words: &mut Words<'_>, depth: u32) -> Result<(Box<Num>, Box<Num>)> {
    let first = boxed_number(alloc, words, depth)?;
    let second = boxed_number(alloc, words, depth)?;
    Ok((first, second))
}

/// A term of flags with no more terms nested in it than `depth`: `true`, `false`, the flag `b3` (`b3'` at the next state),
/// `not A`, `and A B`, `same A B`, `if A B C`, and of numbers `most M N` (M is at most N) and `equal M N`.
#[cycle(terms)]
pub fn term(alloc: Global, words: &mut Words<'_>, depth: u32) -> Result<Term> {
    if depth == 0 {
        bail!("a term is too deep");
    }
    let depth = depth - 1;
    let word = next_word(words)?;
    Ok(match word.as_bytes() {
        [b't', ..] => Term::Truth(true),
        [b'f', ..] => Term::Truth(false),
        [b'n', ..] => Term::Not(boxed(alloc, words, depth)?),
        [b'a', ..] => {
            let (a, b) = pair(alloc, words, depth)?;
            Term::And(a, b)
        }
        [b's', ..] => {
            let (a, b) = pair(alloc, words, depth)?;
            Term::Same(a, b)
        }
        [b'i', ..] => {
            let (c, a) = pair(alloc, words, depth)?;
            Term::Choose(c, a, boxed(alloc, words, depth)?)
        }
        [b'm', ..] => {
            let (a, b) = number_pair(alloc, words, depth)?;
            Term::AtMost(a, b)
        }
        [b'e', ..] => {
            let (a, b) = number_pair(alloc, words, depth)?;
            Term::Equal(a, b)
        }
        _ => Term::Flag(variable(word.trim_start_matches('b'))?),
    })
}

/// A number in the same way: a constant, the variable `x3`, `sum M N`, `times 2 N`, `if A M N`.
#[cycle(terms)]
fn number(alloc: Global, words: &mut Words<'_>, depth: u32) -> Result<Num> {
    if depth == 0 {
        bail!("a term is too deep");
    }
    let depth = depth - 1;
    let word = next_word(words)?;
    Ok(match word.as_bytes() {
        [b's', ..] => {
            let (a, b) = number_pair(alloc, words, depth)?;
            Num::Add(a, b)
        }
        [b't', ..] => {
            let factor = next_word(words)?.parse()?;
            Num::Scale(factor, boxed_number(alloc, words, depth)?)
        }
        [b'i', ..] => {
            let condition = boxed(alloc, words, depth)?;
            let (a, b) = number_pair(alloc, words, depth)?;
            Num::Choose(condition, a, b)
        }
        [b'x', ..] => Num::Value(variable(word.trim_start_matches('x'))?),
        _ => Num::Constant(word.parse()?),
    })
}
