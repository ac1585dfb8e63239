//! Reads, copies and drops the deepest expressions that the grammar takes, in the first thread and
//! in one that it starts.

use contract_reader::read_program;
use std::alloc::{AllocError, Global};
use std::thread::{Threads, join};

/// A way to nest: what opens a level, what stands inside the last one, what closes a level, and how
/// many levels there are in an expression of at most 1,000 tokens.
#[derive(Clone, Copy)]
struct Nesting {
    name: &'static str,
    open: &'static str,
    inside: &'static str,
    close: &'static str,
    levels: usize,
}

const NESTINGS: [Nesting; 9] = [
    Nesting {
        name: "parentheses",
        open: "(",
        inside: "a",
        close: ")",
        levels: 499,
    },
    Nesting {
        name: "not",
        open: "not ",
        inside: "a",
        close: "",
        levels: 999,
    },
    Nesting {
        name: "pre",
        open: "pre ",
        inside: "a",
        close: "",
        levels: 999,
    },
    Nesting {
        name: "minus",
        open: "- ",
        inside: "a",
        close: "",
        levels: 999,
    },
    Nesting {
        name: "if",
        open: "if ",
        inside: "a",
        close: " then a else a",
        levels: 199,
    },
    Nesting {
        name: "call",
        open: "f(",
        inside: "a",
        close: ")",
        levels: 333,
    },
    Nesting {
        name: "condact",
        open: "condact(a, f(",
        inside: "a",
        close: "), 0)",
        levels: 99,
    },
    Nesting {
        name: "merge",
        open: "merge c (true -> ",
        inside: "a",
        close: ") (false -> a)",
        levels: 90,
    },
    Nesting {
        name: "arrow",
        open: "a -> ",
        inside: "a",
        close: "",
        levels: 499,
    },
];

/// A source with one equation of such an expression.
fn source(alloc: Global, nesting: Nesting) -> Result<Vec<u8>, AllocError> {
    let mut text = Vec::new(alloc);
    text.extend_from_slice(b"node main(a, c : bool) returns (x : bool); let x = ")?;
    for _ in 0..nesting.levels {
        text.extend_from_slice(nesting.open.as_bytes())?;
    }
    text.extend_from_slice(nesting.inside.as_bytes())?;
    for _ in 0..nesting.levels {
        text.extend_from_slice(nesting.close.as_bytes())?;
    }
    text.extend_from_slice(b"; tel")?;
    Ok(text)
}

/// Whether the source is read, copied and dropped.
fn passes(alloc: Global, nesting: Nesting) -> Result<bool, AllocError> {
    let text = source(alloc, nesting)?;
    if text.len() > 1_048_576 {
        return Ok(false);
    }
    match read_program(alloc, &text) {
        Ok(program) => {
            let copy = program.copied(alloc)?;
            Ok(copy.decls.len() == 1)
        }
        Err(_) => Ok(false),
    }
}

fn word(passed: Result<bool, AllocError>) -> &'static str {
    match passed {
        Ok(true) => "passes",
        Ok(false) => "is refused",
        Err(_) => "wants memory",
    }
}

/// What came of each, a line each.
pub fn lines(rt: &impl Threads, alloc: Global) -> Result<Vec<String>, AllocError> {
    let mut lines = Vec::new(alloc);
    for nesting in NESTINGS {
        let here = word(passes(alloc, nesting));
        let (there, _) = join(rt, move || word(passes(alloc, nesting)), || ());
        let name = nesting.name;
        lines.push(format!(in alloc; "{name} {here}, {there}")?)?;
    }
    Ok(lines)
}
