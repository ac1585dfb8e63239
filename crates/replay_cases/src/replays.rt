//! What a replay shows.

ghost use Rattle.std.specs.Prelude.{◌≤◌, length};

use crate::texts::wrong;
use lus_checked::Checked;
use lus_meaning::{Trace, Value};
use lus_tree::Param;
use program_replay::{Replay, ReplayFault, replay};
use std::alloc::{AllocError, Global};
use trace_text::{TraceFault, read_trace};

/// The trace of a text.
fn listing(alloc: Global, bytes: &[u8]) -> Result<Trace, ReplayFault>
    requires { length bytes.now ≤ 1048576 }
{
    match read_trace(alloc, bytes) {
        Ok(trace) => Ok(trace),
        Err(TraceFault::Form(at)) => Err(ReplayFault::Form(at)),
        Err(TraceFault::Memory) => Err(ReplayFault::Memory),
    }
}

fn replayed(alloc: Global, checked: &Checked, bytes: &[u8]) -> Result<(Replay, u32), ReplayFault>
    requires { length bytes.now ≤ 1048576 }
{
    let trace = listing(alloc, bytes)?;
    let replay = replay(alloc, checked, &trace)?;
    Ok((replay, trace.length))
}

/// Where a trace goes wrong, or which value is outside 128 bits.
fn fault(alloc: Global, fault: ReplayFault) -> Result<String, AllocError> {
    match fault {
        ReplayFault::Form(at) => wrong(alloc, at),
        ReplayFault::Past { at, instant, .. } => {
            let (line, column) = (at.line, at.column);
            format!(in alloc; "past at {line}:{column}, instant {instant}")
        }
        ReplayFault::Memory => Err(AllocError),
    }
}

/// Whether the trace fits the program, or where it doesn't.
pub fn fits(alloc: Global, checked: &Checked, bytes: &[u8]) -> Result<String, AllocError>
    requires { length bytes.now ≤ 1048576 }
{
    match replayed(alloc, checked, bytes) {
        Ok(_) => String::from_str(alloc, "fits"),
        Err(e) => fault(alloc, e),
    }
}

fn letter(value: Option<Value>) -> &'static str {
    match value {
        Some(Value::Truth(true)) => "T",
        Some(Value::Truth(false)) => "F",
        Some(Value::Whole(_)) => "?",
        None => "-",
    }
}

/// A name and its values, with one more instant than there are.
fn show_name(
    out: &mut String,
    replay: &Replay,
    name: &str,
    instants: u32,
) -> Result<(), AllocError> {
    write!(out, "{name} ")?;
    for t in 0..=instants {
        out.push_str(letter(replay.value(&[], name, t)))?;
    }
    out.push_str("; ")
}

fn show_names(
    out: &mut String,
    replay: &Replay,
    params: &[Param],
    instants: u32,
) -> Result<(), AllocError> {
    for param in params {
        show_name(out, replay, &param.name.text, instants)?;
    }
    Ok(())
}

/// The breaks of four properties, whether there are so many or not.
fn show_breaks(out: &mut String, replay: &Replay) -> Result<(), AllocError> {
    out.push_str("breaks")?;
    for property in 0..4 {
        match replay.breaks(property) {
            Some(instant) => write!(out, " {instant}")?,
            None => out.push_str(" -")?,
        }
    }
    Ok(())
}

fn show(
    alloc: Global,
    checked: &Checked,
    replay: &Replay,
    instants: u32,
) -> Result<String, AllocError> {
    let mut out = String::new(alloc);
    let Some(node) = checked.program().node(replay.node()) else {
        return Ok(out);
    };
    show_names(&mut out, replay, &node.inputs, instants)?;
    show_names(&mut out, replay, &node.outputs, instants)?;
    show_names(&mut out, replay, &node.locals, instants)?;
    let (unknown, called) = (replay.value(&[], "no", 0), replay.value(&[1], "x", 0));
    write!(out, "others {}{}; ", letter(unknown), letter(called))?;
    show_breaks(&mut out, replay)?;
    let lawful = replay.lawful();
    write!(out, "; lawful {lawful}")?;
    Ok(out)
}

/// The values of each name, the breaks of the properties, and how many instants are lawful, or
/// where the trace doesn't fit.
pub fn shown(alloc: Global, checked: &Checked, bytes: &[u8]) -> Result<String, AllocError>
    requires { length bytes.now ≤ 1048576 }
{
    match replayed(alloc, checked, bytes) {
        Ok((replay, instants)) => show(alloc, checked, &replay, instants),
        Err(e) => fault(alloc, e),
    }
}

fn push_value(out: &mut String, value: Option<Value>) -> Result<(), AllocError> {
    match value {
        Some(Value::Truth(truth)) => write!(out, " {truth}"),
        Some(Value::Whole(number)) => write!(out, " {number}"),
        None => out.push_str(" -"),
    }
}

/// A name of the frame at the end of a way of calls and its values, with one more instant than there are.
fn show_stream(
    out: &mut String,
    replay: &Replay,
    way: &[u32],
    name: &str,
    instants: u32,
) -> Result<(), AllocError> {
    write!(out, " {name}")?;
    for t in 0..=instants {
        push_value(out, replay.value(way, name, t))?;
    }
    out.push_str(",")
}

/// The names of a frame with their values, and one that it hasn't.
fn show_frame(
    out: &mut String,
    replay: &Replay,
    way: &[u32],
    instants: u32,
) -> Result<(), AllocError> {
    for number in way {
        write!(out, "{number}.")?;
    }
    for name in ["a", "b", "last", "twice", "y"] {
        show_stream(out, replay, way, name, instants)?;
    }
    out.push_str(";")
}

fn show_frames(alloc: Global, replay: &Replay, instants: u32) -> Result<String, AllocError> {
    let mut out = String::new(alloc);
    show_frame(&mut out, replay, &[], instants)?;
    show_frame(&mut out, replay, &[1], instants)?;
    show_frame(&mut out, replay, &[1, 1], instants)?;
    show_frame(&mut out, replay, &[1, 1, 1], instants)?;
    show_frame(&mut out, replay, &[2], instants)?;
    show_frame(&mut out, replay, &[2, 1], instants)?;
    show_frame(&mut out, replay, &[1, 2], instants)?;
    show_frame(&mut out, replay, &[0], instants)?;
    Ok(out)
}

/// The values of names in the frames of calls, or where the trace doesn't fit.
pub fn framed(alloc: Global, checked: &Checked, bytes: &[u8]) -> Result<String, AllocError>
    requires { length bytes.now ≤ 1048576 }
{
    match replayed(alloc, checked, bytes) {
        Ok((replay, instants)) => show_frames(alloc, &replay, instants),
        Err(e) => fault(alloc, e),
    }
}
