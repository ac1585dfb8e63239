//! Terms, read from words: each word stands before its operands.

use crate::parts::{long_number, number};
use std::alloc::{AllocError, Global};
use sys_terms::{Num, Term, Var};

/// A term or a number that was read.
#[derive(Drop)]
pub enum Operand {
    Truth(Term),
    Amount(Num),
}

/// What was read, from the last word on: the first operand of the word before it stands last.
pub type Operands = Vec<Operand>;

/// The term that was read last; false where there is none.
pub fn pop_term(operands: &mut Operands) -> Term {
    match operands.pop() {
        Some(Operand::Truth(term)) => term,
        Some(Operand::Amount(_)) | None => Term::Truth(false),
    }
}

/// The number that was read last; 0 where there is none.
fn pop_number(operands: &mut Operands) -> Num {
    match operands.pop() {
        Some(Operand::Amount(number)) => number,
        Some(Operand::Truth(_)) | None => Num::Constant(0),
    }
}

fn pop_constant(operands: &mut Operands) -> i128 {
    match pop_number(operands) {
        Num::Constant(number) => number,
        _ => 0,
    }
}

fn boxed(alloc: Global, operands: &mut Operands) -> Result<Box<Term>, AllocError> {
    Ok(Box::new(alloc, pop_term(operands))?)
}

fn boxed_number(alloc: Global, operands: &mut Operands) -> Result<Box<Num>, AllocError> {
    Ok(Box::new(alloc, pop_number(operands))?)
}

/// Two terms.
fn pair(alloc: Global, operands: &mut Operands) -> Result<(Box<Term>, Box<Term>), AllocError> {
    let first = boxed(alloc, operands)?;
    let second = boxed(alloc, operands)?;
    Ok((first, second))
}

/// Two numbers.
fn number_pair(alloc: Global, operands: &mut Operands) -> Result<(Box<Num>, Box<Num>), AllocError> {
    let first = boxed_number(alloc, operands)?;
    let second = boxed_number(alloc, operands)?;
    Ok((first, second))
}

/// The variable of this number; behind an apostrophe its value at the next state.
fn variable(word: &str) -> Var {
    let name = word.trim_end_matches('\'');
    Var {
        number: number(name),
        next: name.len() < word.len(),
    }
}

/// `true`, `false`, the flag `b3` (`b3'` at the next state), the variable `x3` and constants.
fn leaf(word: &str) -> Operand {
    match word.as_bytes() {
        [b't', ..] => Operand::Truth(Term::Truth(true)),
        [b'f', ..] => Operand::Truth(Term::Truth(false)),
        [b'b', ..] => Operand::Truth(Term::Flag(variable(word.trim_start_matches('b')))),
        [b'x', ..] => Operand::Amount(Num::Value(variable(word.trim_start_matches('x')))),
        _ => Operand::Amount(Num::Constant(long_number(word))),
    }
}

/// `not A`
fn denied(alloc: Global, operands: &mut Operands) -> Result<Operand, AllocError> {
    Ok(Operand::Truth(Term::Not(boxed(alloc, operands)?)))
}

/// `and A B` and `same A B`.
fn connected(alloc: Global, operands: &mut Operands, first: u8) -> Result<Operand, AllocError> {
    let (a, b) = pair(alloc, operands)?;
    Ok(Operand::Truth(if first == b'a' {
        Term::And(a, b)
    } else {
        Term::Same(a, b)
    }))
}

/// `most M N` (M is at most N) and `equal M N`.
fn compared(alloc: Global, operands: &mut Operands, first: u8) -> Result<Operand, AllocError> {
    let (a, b) = number_pair(alloc, operands)?;
    Ok(Operand::Truth(if first == b'm' {
        Term::AtMost(a, b)
    } else {
        Term::Equal(a, b)
    }))
}

/// `sum M N` and `less M N` (M less N).
fn added(alloc: Global, operands: &mut Operands, first: u8) -> Result<Operand, AllocError> {
    let (a, b) = number_pair(alloc, operands)?;
    Ok(Operand::Amount(if first == b's' {
        Num::Add(a, b)
    } else {
        Num::Sub(a, b)
    }))
}

/// `times 2 N`
fn multiple(alloc: Global, operands: &mut Operands) -> Result<Operand, AllocError> {
    let factor = pop_constant(operands);
    Ok(Operand::Amount(Num::Scale(factor, boxed_number(alloc, operands)?)))
}

/// `quotient N 2` and `remainder N 2`.
fn divided(alloc: Global, operands: &mut Operands, first: u8) -> Result<Operand, AllocError> {
    let number = boxed_number(alloc, operands)?;
    let divisor = pop_constant(operands);
    Ok(Operand::Amount(if first == b'q' {
        Num::Div(number, divisor)
    } else {
        Num::Mod(number, divisor)
    }))
}

fn is_number(operand: Option<&Operand>) -> bool {
    match operand {
        Some(Operand::Amount(_)) => true,
        Some(Operand::Truth(_)) | None => false,
    }
}

/// `if A B C` of terms, and `if A M N` of numbers.
fn choice(alloc: Global, operands: &mut Operands) -> Result<Operand, AllocError> {
    let condition = boxed(alloc, operands)?;
    if is_number(operands.last()) {
        let (a, b) = number_pair(alloc, operands)?;
        Ok(Operand::Amount(Num::Choose(condition, a, b)))
    } else {
        let (a, b) = pair(alloc, operands)?;
        Ok(Operand::Truth(Term::Choose(condition, a, b)))
    }
}

/// What was read first; false where there is nothing.
fn lowest(operands: &mut Operands) -> Operand {
    if operands.is_empty() {
        Operand::Truth(Term::Truth(false))
    } else {
        operands.remove(0)
    }
}

/// What the word makes of the operands.
fn applied(alloc: Global, operands: &mut Operands, word: &str) -> Result<Operand, AllocError> {
    match word.as_bytes() {
        [b'n', ..] => denied(alloc, operands),
        [b'a', ..] => connected(alloc, operands, b'a'),
        [b's', b'a', ..] => connected(alloc, operands, b's'),
        [b'm', ..] => compared(alloc, operands, b'm'),
        [b'e', ..] => compared(alloc, operands, b'e'),
        [b's', b'u', ..] => added(alloc, operands, b's'),
        [b'l', ..] => added(alloc, operands, b'l'),
        [b't', b'i', ..] => multiple(alloc, operands),
        [b'q', ..] => divided(alloc, operands, b'q'),
        [b'r', ..] => divided(alloc, operands, b'r'),
        [b'i', ..] => choice(alloc, operands),
        [b'_', ..] => Ok(lowest(operands)),
        _ => Ok(leaf(word)),
    }
}

/// Reads the words of a text. Beside those of terms `_` stands for what was read first.
pub fn read(alloc: Global, operands: &mut Operands, text: &str) -> Result<(), AllocError> {
    let mut words: Vec<&str> = text.split_whitespace().collect(alloc)?;
    for _ in 0..words.len() {
        let Some(word) = words.pop() else { break };
        let operand = applied(alloc, operands, word)?;
        operands.push(operand)?;
    }
    Ok(())
}

/// The term of a text.
pub fn term(alloc: Global, text: &str) -> Result<Term, AllocError> {
    let mut operands = Vec::new(alloc);
    read(alloc, &mut operands, text)?;
    Ok(pop_term(&mut operands))
}
