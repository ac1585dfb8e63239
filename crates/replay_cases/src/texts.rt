//! What is read of the text of a trace, and written again.

ghost use Rattle.std.specs.Prelude.{◌≤◌, length};

use lus_meaning::{Spot, Trace, TraceLine, Value};
use lus_tree::Pos;
use std::alloc::{AllocError, Global};
use trace_text::{TraceFault, read_trace, write_trace};

/// A place at which a trace goes wrong.
pub fn wrong(alloc: Global, at: Pos) -> Result<String, AllocError> {
    let Pos { line, column } = at;
    format!(in alloc; "at {line}:{column}")
}

/// Where a trace goes wrong.
fn fault(alloc: Global, fault: TraceFault) -> Result<String, AllocError> {
    match fault {
        TraceFault::Form(at) => wrong(alloc, at),
        TraceFault::Memory => Err(AllocError),
    }
}

fn show_value(out: &mut String, value: Option<Value>) -> Result<(), AllocError> {
    match value {
        None => out.push_str("_"),
        Some(Value::Truth(b)) => write!(out, "{b}"),
        Some(Value::Whole(n)) => write!(out, "{n}"),
    }
}

fn show_line(out: &mut String, line: &TraceLine) -> Result<(), AllocError> {
    let Pos { line: row, column } = line.at;
    write!(out, "; {row}:{column} ")?;
    for number in &line.path {
        write!(out, "{number}.")?;
    }
    match &line.what {
        Spot::Name(name) => out.push_str(name)?,
        Spot::First(number) => write!(out, "#{number}")?,
    }
    for placed in &line.values {
        out.push_str(" ")?;
        show_value(out, placed.value)?;
    }
    Ok(())
}

fn show_trace(alloc: Global, trace: &Trace) -> Result<String, AllocError> {
    let (node, count) = (&trace.node, trace.length);
    let mut out = format!(in alloc; "{node} {count}")?;
    for line in &trace.lines {
        show_line(&mut out, line)?;
    }
    Ok(out)
}

/// The node, the number of instants and the lines, each with its place.
pub fn read(alloc: Global, bytes: &[u8]) -> Result<String, AllocError>
    requires { length bytes.now ≤ 1048576 }
{
    match read_trace(alloc, bytes) {
        Ok(trace) => show_trace(alloc, &trace),
        Err(e) => fault(alloc, e),
    }
}

fn show_place(out: &mut String, at: Pos) -> Result<(), AllocError> {
    let Pos { line, column } = at;
    write!(out, " {line}:{column}")
}

fn show_places(alloc: Global, trace: &Trace) -> Result<String, AllocError> {
    let mut out = String::from_str(alloc, "places")?;
    show_place(&mut out, trace.node_at)?;
    show_place(&mut out, trace.length_at)?;
    for line in &trace.lines {
        show_place(&mut out, line.at)?;
        for placed in &line.values {
            show_place(&mut out, placed.at)?;
        }
    }
    show_place(&mut out, trace.end_at)?;
    Ok(out)
}

/// The places of the node's name and of the number of instants, of each line and its values, and
/// of the end.
pub fn places(alloc: Global, bytes: &[u8]) -> Result<String, AllocError>
    requires { length bytes.now ≤ 1048576 }
{
    match read_trace(alloc, bytes) {
        Ok(trace) => show_places(alloc, &trace),
        Err(e) => fault(alloc, e),
    }
}

/// The lines of a text, with bars between them.
fn joined(alloc: Global, bytes: &[u8]) -> Result<String, AllocError> {
    let mut out = String::new(alloc);
    let Ok(text) = std::str::from_utf8(bytes) else {
        return Ok(out);
    };
    for line in text.lines() {
        out.push_str(line)?;
        out.push_str("|")?;
    }
    Ok(out)
}

fn show_written(alloc: Global, trace: &Trace) -> Result<String, AllocError> {
    match write_trace(alloc, trace) {
        Ok(bytes) => joined(alloc, &bytes),
        Err(e) => fault(alloc, e),
    }
}

/// What is written of a copy of the trace.
pub fn written(alloc: Global, bytes: &[u8]) -> Result<String, AllocError>
    requires { length bytes.now ≤ 1048576 }
{
    match read_trace(alloc, bytes) {
        Ok(trace) => show_written(alloc, &trace.copied(alloc)?),
        Err(e) => fault(alloc, e),
    }
}

/// A line of the same values that stands in no text.
fn unplaced(alloc: Global, line: &TraceLine) -> Result<TraceLine, AllocError> {
    let path = line.path.to_vec(alloc)?;
    let what = line.what.copied(alloc)?;
    let mut values = Vec::new(alloc);
    for placed in &line.values {
        values.push(placed.value)?;
    }
    TraceLine::unplaced(alloc, path, what, &values, line.at)
}

fn without_places(alloc: Global, trace: Trace) -> Result<Trace, AllocError> {
    let mut lines = Vec::new(alloc);
    for line in &trace.lines {
        lines.push(unplaced(alloc, line)?)?;
    }
    Ok(Trace { lines, ..trace })
}

/// The places of a trace of the same lines that stand in no text.
pub fn rebuilt(alloc: Global, bytes: &[u8]) -> Result<String, AllocError>
    requires { length bytes.now ≤ 1048576 }
{
    match read_trace(alloc, bytes) {
        Ok(trace) => show_places(alloc, &without_places(alloc, trace)?),
        Err(e) => fault(alloc, e),
    }
}
