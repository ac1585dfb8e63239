//! Terms as text.

use std::alloc::{AllocError, Global};
use sys_terms::{Num, Term, Var};

fn var_text(alloc: Global, var: Var) -> Result<String, AllocError> {
    let number = var.number;
    if var.next {
        format!(in alloc; "v{number}'")
    } else {
        format!(in alloc; "v{number}")
    }
}

fn number_text(alloc: Global, number: i128) -> Result<String, AllocError> {
    format!(in alloc; "{number}")
}

/// One text behind another.
fn joined(
    alloc: Global,
    a: Result<String, AllocError>,
    b: Result<String, AllocError>,
) -> Result<String, AllocError> {
    match (a, b) {
        (Ok(a), Ok(b)) => format!(in alloc; "{a} {b}"),
        _ => Err(AllocError),
    }
}

/// A word and the text of its operands.
fn with(
    alloc: Global,
    word: &str,
    operands: Result<String, AllocError>,
) -> Result<String, AllocError> {
    let operands = operands?;
    format!(in alloc; "({word} {operands})")
}

/// A word and the texts of two operands.
fn with_two(
    alloc: Global,
    word: &str,
    a: Result<String, AllocError>,
    b: Result<String, AllocError>,
) -> Result<String, AllocError> {
    with(alloc, word, joined(alloc, a, b))
}

/// The text of a choice, of those of its operands.
fn choice_text(
    alloc: Global,
    c: Result<String, AllocError>,
    a: Result<String, AllocError>,
    b: Result<String, AllocError>,
) -> Result<String, AllocError> {
    with_two(alloc, "if", c, joined(alloc, a, b))
}

/// The term as text.
#[cycle(text)]
pub fn term_text(alloc: Global, term: &Term) -> Result<String, AllocError> {
    match term {
        Term::Truth(b) => format!(in alloc; "{b}"),
        Term::Flag(v) => var_text(alloc, *v),
        Term::Not(a) => with(alloc, "not", term_text(alloc, a)),
        Term::And(a, b) => with_two(alloc, "and", term_text(alloc, a), term_text(alloc, b)),
        Term::Same(a, b) => with_two(alloc, "same", term_text(alloc, a), term_text(alloc, b)),
        Term::Choose(c, a, b) => choice_text(
            alloc,
            term_text(alloc, c),
            term_text(alloc, a),
            term_text(alloc, b),
        ),
        Term::AtMost(a, b) => with_two(alloc, "le", num_text(alloc, a), num_text(alloc, b)),
        Term::Equal(a, b) => with_two(alloc, "eq", num_text(alloc, a), num_text(alloc, b)),
    }
}

#[cycle(text)]
fn num_text(alloc: Global, num: &Num) -> Result<String, AllocError> {
    match num {
        Num::Constant(n) => number_text(alloc, *n),
        Num::Value(v) => var_text(alloc, *v),
        Num::Add(a, b) => with_two(alloc, "+", num_text(alloc, a), num_text(alloc, b)),
        Num::Sub(a, b) => with_two(alloc, "-", num_text(alloc, a), num_text(alloc, b)),
        Num::Scale(n, a) => with_two(alloc, "*", number_text(alloc, *n), num_text(alloc, a)),
        Num::Choose(c, a, b) => choice_text(
            alloc,
            term_text(alloc, c),
            num_text(alloc, a),
            num_text(alloc, b),
        ),
        Num::Div(a, d) => with_two(alloc, "div", num_text(alloc, a), number_text(alloc, *d)),
        Num::Mod(a, d) => with_two(alloc, "mod", num_text(alloc, a), number_text(alloc, *d)),
    }
}
