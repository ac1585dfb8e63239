//! Writes a trace.

ghost use Rattle.std.specs.Prelude.{◌≡◌, ◌++◌, ◌∷◌, [], OnOk, IfOk, IfErr, decimal, map};
ghost use Rattle.std.specs.List.{flat_map};
ghost use Rattle.lus_meaning.specs.TraceView.{bare_line, bare_view, entry_view, spot_view, line_view, trace_view, values_view};
ghost use Rattle.trace_text.specs.Words.{step_text, subject_text};
ghost use Rattle.trace_text.specs.Traces.{item_text, line_text, trace_text};

use crate::fault::TraceFault;
use itoa::Buffer;
use lus_meaning::{PlacedValue, Spot, Trace, TraceLine, Value};
use std::alloc::{AllocError, Global};

/// Adds a number.
fn put_number(out: &mut Vec<u8>, n: u32) -> Result<(), AllocError>
    ensures { OnOk result (out.new.items ≡ out.old.items ++ decimal n) }
{
    out.extend_from_slice(Buffer::new().format(n).as_bytes())
}

/// Adds a name, or `#` and a number.
fn put_spot(out: &mut Vec<u8>, what: &Spot) -> Result<(), AllocError>
    ensures { OnOk result (out.new.items ≡ out.old.items ++ subject_text (spot_view what.now)) }
{
    match what {
        Spot::Name(name) => out.extend_from_slice(name.as_bytes()),
        Spot::First(number) => {
            out.push(b'#')?;
            put_number(out, *number)
        }
    }
}

/// Adds a number and a dot for each call.
fn put_path(out: &mut Vec<u8>, path: &[u32]) -> Result<(), AllocError>
    ensures { OnOk result (out.new.items ≡ out.old.items ++ flat_map step_text path.now) }
{
    for number in path {
        put_number(out, *number)?;
        out.push(b'.')?;
    }
    Ok(())
}

/// Adds a space and a value.
fn put_value(out: &mut Vec<u8>, value: Option<Value>) -> Result<(), AllocError>
    ensures { OnOk result (out.new.items ≡ out.old.items ++ item_text (entry_view value)) }
{
    out.push(b' ')?;
    match value {
        None => out.extend_from_slice(b"_"),
        Some(Value::Truth(true)) => out.extend_from_slice(b"true"),
        Some(Value::Truth(false)) => out.extend_from_slice(b"false"),
        Some(Value::Whole(number)) => {
            out.extend_from_slice(Buffer::new().format(number).as_bytes())
        }
    }
}

/// Adds the values of a line.
fn put_values(out: &mut Vec<u8>, values: &[PlacedValue]) -> Result<(), AllocError>
    ensures { OnOk result (out.new.items ≡ out.old.items ++ flat_map item_text (values_view values.now)) }
{
    for placed in values {
        put_value(out, placed.value)?;
    }
    Ok(())
}

/// Adds a line.
fn put_line(out: &mut Vec<u8>, line: &TraceLine) -> Result<(), AllocError>
    ensures { OnOk result (out.new.items ≡ out.old.items ++ line_text (bare_view line.now)) }
{
    put_path(out, &line.path)?;
    put_spot(out, &line.what)?;
    put_values(out, &line.values)?;
    out.push(b'\n')?;
    Ok(())
}

/// Adds the lines.
fn put_lines(out: &mut Vec<u8>, lines: &[TraceLine]) -> Result<(), AllocError>
    ensures { OnOk result (out.new.items ≡ out.old.items ++ flat_map (λ l. line_text (bare_line l))
        (map line_view lines.now)) }
{
    for line in lines {
        put_line(out, line)?;
    }
    Ok(())
}

/// The text of a trace: single spaces, a line feed behind each line. The places of its lines play
/// no part.
///
/// # Errors
///
/// Only `Memory`, for want of memory.
pub fn write_trace(alloc: Global, trace: &Trace) -> Result<Vec<u8>, TraceFault>
    ensures text { IfOk result (λ v. v.items ≡ trace_text (trace_view trace.now)) }
    ensures memory { IfErr result (λ e. e ≡ TraceFault.Memory) }
{
    let mut out = Vec::from_slice(alloc, b"trace ")?;
    out.extend_from_slice(trace.node.as_bytes())?;
    out.push(b' ')?;
    put_number(&mut out, trace.length)?;
    out.push(b'\n')?;
    put_lines(&mut out, &trace.lines)?;
    out.extend_from_slice(b"end\n")?;
    Ok(out)
}
