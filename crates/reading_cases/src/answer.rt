//! What is asked of a case, and the answer.

use crate::cut::{fault, identifier, last, places, spans};
use crate::escape::unescaped;
use crate::nodes::{fronts, nodes};
use crate::parts::{counted, part_of};
use crate::program::{is_program, program_of};
use lus_reader::Counts;
use std::alloc::{AllocError, Global};

/// The limit on a source, in bytes.
pub const LIMIT: usize = 1_048_576;

/// A file of cases without its `.cases`, and what is asked of each.
pub type Table = (&'static str, Ask);

/// What is asked of a text; with true, places are printed.
#[derive(Clone, Copy, Debug)]
pub enum Ask {
    Spans,
    Places,
    Fault,
    End,
    Identifier,
    Expression(bool),
    IsExpression,
    Counted,
    Names,
    Left,
    Parameters,
    Groups,
    LocalGroup,
    Label,
    Constant,
    Body,
    Program(bool),
    IsProgram,
    Nodes,
    Fronts,
}

/// The answer for a line of a file of cases.
pub fn answer(alloc: Global, ask: Ask, line: &str) -> Result<String, AllocError> {
    let (before, line) = match ask {
        Ask::Counted => numbers(line),
        _ => ((0, NONE), line),
    };
    let bytes = unescaped(alloc, line)?;
    if bytes.len() > LIMIT {
        return String::from_str(alloc, "too long");
    }
    match ask {
        Ask::Spans => spans(alloc, &bytes),
        Ask::Places => places(alloc, &bytes),
        Ask::Fault => fault(alloc, &bytes),
        Ask::End => last(alloc, &bytes),
        Ask::Identifier => identifier(alloc, &bytes),
        Ask::Counted => counted(alloc, &bytes, before.0, before.1),
        Ask::Program(places) => program_of(alloc, &bytes, places),
        Ask::IsProgram => is_program(alloc, &bytes),
        Ask::Nodes => nodes(alloc, &bytes),
        Ask::Fronts => fronts(alloc, &bytes),
        part => part_of(alloc, part, &bytes),
    }
}

const NONE: Counts = Counts {
    pres: 0,
    arrows: 0,
    calls: 0,
};

/// `TOKEN PRES ARROWS CALLS` and the text behind them.
fn numbers(line: &str) -> ((u32, Counts), &str) {
    let (from, line) = number(line);
    let (pres, line) = number(line);
    let (arrows, line) = number(line);
    let (calls, line) = number(line);
    (
        (
            from,
            Counts {
                pres,
                arrows,
                calls,
            },
        ),
        line,
    )
}

/// A number up to the next blank, and the text behind that.
fn number(line: &str) -> (u32, &str) {
    match line.split_once(' ') {
        Some((number, rest)) => (number.parse().unwrap_or(0), rest),
        None => (0, line),
    }
}
