//! Reads a trace, line by line.

ghost use Rattle.std.specs.Prelude.{◌≡◌, ◌<◌, ◌+◌, ◌^◌, length, map, IfOk, IfErr, Ok, Err};
ghost use Rattle.std.specs.String.{string_bytes};
ghost use Rattle.lus_tree.specs.declared.place.Pos.{Pos as Place};
ghost use Rattle.lus_meaning.specs.TraceView.{Listing, placed_view, line_view, trace_view};
ghost use Rattle.trace_text.specs.Traces.{IsTraceText, FirstMisfit, Refuses};
ghost use Rattle.trace_text.specs.Reading.{Gives, GoesOnWithin, IsWithin, left_of, next_view, word_view, opening_of, values_left, values_of, line_read, is_closing, line_of, lines_left, reading};

use crate::cursor::{Cursor, TraceWord, first_word, line_word, next_word, no_line, no_word};
use crate::fault::TraceFault;
use crate::words::{address, name, small, value};
use lus_meaning::{PlacedValue, Trace, TraceLine};
use lus_tree::Pos;
use std::alloc::Global;

/// The values that are left in a line, with room for so many.
fn values_left<'a>(
    alloc: Global,
    room: usize,
    start: Cursor<'a>,
) -> Result<(Vec<PlacedValue>, Cursor<'a>), TraceFault>
    requires { IsWithin start }
    ensures values { Gives (λ x. (map placed_view x.0.items, left_of x.1)) result (values_left (left_of start.entry)) }
    ensures within { IfOk result (λ x. IsWithin x.1) }
{
    let mut values = Vec::with_capacity(alloc, room)?;
    let mut here = start;
    while let Some((word, after)) = line_word(here) {
        let Some(value) = value(word.text) else {
            return Err(TraceFault::Form(word.at));
        };
        let at = word.at;
        values.push(PlacedValue { value, at })?;
        here = after;
    }
    Ok((values, here))
}

/// The values that are left in a line, at least one, with room for so many.
#[tactic(auto, unfolding(crate::specs::Reading::values_of))]
fn values<'a>(
    alloc: Global,
    room: usize,
    start: Cursor<'a>,
) -> Result<(Vec<PlacedValue>, Cursor<'a>), TraceFault>
    requires { IsWithin start }
    ensures values { Gives (λ x. (map placed_view x.0.items, left_of x.1)) result (values_of (left_of start.entry)) }
    ensures within { IfOk result (λ x. IsWithin x.1) }
{
    next_word(start)?;
    values_left(alloc, room, start)
}

/// A line from its first word on, with room for so many values.
#[tactic(auto, unfolding(crate::specs::Reading::line_read))]
fn read_line<'a>(
    alloc: Global,
    room: usize,
    first: TraceWord,
    after: Cursor<'a>,
) -> Result<(TraceLine, Cursor<'a>), TraceFault>
    requires { IsWithin after }
    ensures line { Gives (λ x. (line_view x.0, left_of x.1)) result
        (line_read (word_view first.entry) (left_of after.entry)) }
    ensures within { IfOk result (λ x. IsWithin x.1) }
{
    let (path, what) = address(alloc, first)?;
    let (values, after) = values(alloc, room, after)?;
    let at = first.at;
    Ok((
        TraceLine {
            path,
            what,
            values,
            at,
        },
        after,
    ))
}

/// Is this word of a line the whole end line?
fn is_closing(word: TraceWord, after: Cursor) -> bool
    requires { IsWithin after }
    ensures { result ≡ is_closing (word_view word.entry) (left_of after.entry) }
{
    if word.text != b"end".as_slice() {
        return false;
    }
    match line_word(after) {
        Some(_) => false,
        None => true,
    }
}

/// What comes next: a line and what is left behind it, or the end line at this place.
#[derive(Drop)]
pub enum Next<'a> {
    Line(TraceLine, Cursor<'a>),
    End(Pos),
}

/// The next line, with room for so many values, or the end line.
#[tactic(auto, unfolding(crate::specs::Reading::line_from))]
fn line<'a>(alloc: Global, room: usize, here: Cursor<'a>) -> Result<Next<'a>, TraceFault>
    requires { IsWithin here }
    ensures line { Gives next_view result (line_of (left_of here.entry)) }
    ensures within { IfOk result GoesOnWithin }
{
    let (start, after) = first_word(here)?;
    if is_closing(start, after) {
        no_line(after)?;
        return Ok(Next::End(start.at));
    }
    let (line, below) = read_line(alloc, room, start, after)?;
    Ok(Next::Line(line, below))
}

/// The lines up to the end line, and its place.
fn lines(alloc: Global, start: Cursor) -> Result<(Vec<TraceLine>, Pos), TraceFault>
    requires { IsWithin start }
    ensures { Gives (λ x. (map line_view x.0.items, x.1)) result (lines_left (left_of start.entry)) }
{
    let mut lines = Vec::new(alloc);
    let mut here = start;
    // Most lines have as many values as the one before.
    let mut room = 0;
    loop {
        match line(alloc, room, here)? {
            Next::Line(line, after) => {
                room = line.values.len();
                lines.push(line)?;
                here = after;
            }
            Next::End(at) => return Ok((lines, at)),
        }
    }
}

/// A node's name and its place.
type Node = (String, Pos);

/// A number of instants and its place.
type Length = (u32, Pos);

/// The node and the length that the first line names, with their places.
#[tactic(auto, unfolding(crate::specs::Reading::opening_of))]
fn opening<'a>(
    alloc: Global,
    first: TraceWord,
    after: Cursor<'a>,
) -> Result<(Node, Length, Cursor<'a>), TraceFault>
    requires { IsWithin after }
    ensures opening { Gives (λ x. ((string_bytes x.0.0, x.0.1), x.1, left_of x.2)) result
        (opening_of (word_view first.entry) (left_of after.entry)) }
    ensures within { IfOk result (λ x. IsWithin x.2) }
{
    if first.text != b"trace".as_slice() {
        return Err(TraceFault::Form(first.at));
    }
    let (word, after) = next_word(after)?;
    let Some(node) = name(alloc, word.text)? else {
        return Err(TraceFault::Form(word.at));
    };
    let (count, after) = next_word(after)?;
    let Some(length) = small(count.text) else {
        return Err(TraceFault::Form(count.at));
    };
    no_word(after)?;
    Ok(((node, word.at), (length, count.at), after))
}

/// What reading gives.
#[tactic(auto, unfolding(crate::specs::Reading::trace_of))]
fn whole(alloc: Global, bytes: &[u8]) -> Result<Trace, TraceFault>
    requires { length bytes.now + 1 < 2 ^ 32 }
    ensures { Gives trace_view result (reading bytes.now) }
{
    let at = Pos { line: 1, column: 1 };
    let (start, after) = first_word(Cursor { rest: bytes, at })?;
    let ((node, node_at), (length, length_at), below) = opening(alloc, start, after)?;
    let (lines, end_at) = lines(alloc, below)?;
    Ok(Trace {
        node,
        node_at,
        length,
        length_at,
        lines,
        end_at,
    })
}

/// The trace that a text is, whose places, that of its end among them, are below 2^32.
///
/// # Errors
///
/// `Form` exactly where the bytes are outside the format, at the first word or line end that
/// doesn't fit; `Memory` for want of memory.
pub fn read_trace(alloc: Global, bytes: &[u8]) -> Result<Trace, TraceFault>
    requires { length bytes.now + 1 < 2 ^ 32 }
    // What is read is the trace that the bytes are.
    ensures found { IfOk result (λ t. IsTraceText bytes.now (trace_view t)) }
    // A place is the first that doesn't fit.
    ensures form { IfErr result (Refuses bytes.now) }
    // A trace is read, unless memory runs out.
    ensures only { (t : Listing) → IsTraceText bytes.now t → Gives trace_view result (Ok t) }
    // A misfit is told, unless memory runs out.
    ensures told { (p : Place) → FirstMisfit bytes.now p → Gives trace_view result (Err p) }
{
    whole(alloc, bytes)
}
