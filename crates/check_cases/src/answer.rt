//! What is said of a source.

ghost use Rattle.std.specs.Prelude.{◌≤◌, length};

use crate::node::node_text;
use crate::orders::orders_text;
use contract_reader::read_program;
use lus_checked::{Checked, checked};
use lus_clocks::{Clocked, clocks};
use lus_tree::Refusal;
use lus_types::{Typed, types};
use source_laws::laws::grammatical_sources;
use std::alloc::{AllocError, Global};

/// How far a source is read and checked, and what is asked of one that is taken.
#[derive(Clone, Copy)]
pub enum Asked {
    /// It is read alone.
    Read,
    /// Its names, types and numbers are checked.
    Types,
    /// Its clocks are checked besides.
    Clocks,
    /// All is checked.
    Checked,
    /// All is checked: the number of its main node, and the orders of its declarations.
    Orders,
    /// All is checked: the same, and what is known of its main node.
    Node,
}

/// The most bytes of a source.
const MOST_BYTES: usize = 1_048_576;

/// The program of a source that breaks no rule of names, types and numbers.
fn typed_source(alloc: Global, bytes: &[u8]) -> Result<Typed, Refusal>
    requires { length bytes.now ≤ 1048576 }
{
    let program = read_program(alloc, bytes)?;
    types(alloc, program)
}

/// The program of a source that breaks no rule of clocks either.
fn clocked_source(alloc: Global, bytes: &[u8]) -> Result<Clocked, Refusal>
    requires { length bytes.now ≤ 1048576 }
{
    let typed = typed_source(alloc, bytes)?;
    clocks(alloc, typed)
}

/// The program of a source that breaks no rule and passes no limit.
fn checked_source(alloc: Global, bytes: &[u8], main: Option<&str>) -> Result<Checked, Refusal>
    requires { length bytes.now ≤ 1048576 }
{
    grammatical_sources();
    let program = read_program(alloc, bytes)?;
    let typed = types(alloc, program)?;
    let clocked = clocks(alloc, typed)?;
    checked(alloc, clocked, main)
}

/// That a source is taken, or why and where it is refused.
fn taken_or_refusal<T: Drop>(
    alloc: Global,
    found: Result<T, Refusal>,
) -> Result<String, AllocError> {
    match found {
        Ok(_) => String::from_str(alloc, "taken"),
        Err(refusal) => format!(in alloc; "{refusal}"),
    }
}

/// What is asked of a program, or why and where its source is refused.
fn asked_or_refusal(
    alloc: Global,
    asked: Asked,
    found: Result<Checked, Refusal>,
) -> Result<String, AllocError> {
    match (asked, found) {
        (Asked::Orders, Ok(program)) => orders_text(alloc, &program),
        (Asked::Node, Ok(program)) => node_text(alloc, &program),
        (_, found) => taken_or_refusal(alloc, found),
    }
}

/// What is asked of a source, or why and where it is refused.
pub fn told(
    alloc: Global,
    asked: Asked,
    source: &str,
    main: Option<&str>,
) -> Result<String, AllocError> {
    let bytes = source.as_bytes();
    if bytes.len() > MOST_BYTES {
        return String::from_str(alloc, "too long");
    }
    match asked {
        Asked::Read => taken_or_refusal(alloc, read_program(alloc, bytes)),
        Asked::Types => taken_or_refusal(alloc, typed_source(alloc, bytes)),
        Asked::Clocks => taken_or_refusal(alloc, clocked_source(alloc, bytes)),
        _ => asked_or_refusal(alloc, asked, checked_source(alloc, bytes, main)),
    }
}
