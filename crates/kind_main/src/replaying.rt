//! The command `replay`.
ghost use Rattle.std.specs.Prelude.{◌≡◌, ◌≤◌, ◌<◌, ◌∷◌, [], List, Some, length, IfOk, MatchResult, ℕ};
ghost use Rattle.lus_tree.specs.Lookup.{node_at, nodes_of};
ghost use Rattle.lus_tree.specs.View.{node_view};
ghost use Rattle.lus_meaning.specs.Fits.{FitsProgram};
ghost use Rattle.lus_meaning.specs.TraceView.{trace_view};
ghost use Rattle.lus_checked.specs.Program.{tree_of};
ghost use Rattle.program_replay.specs.Answer.{replay_view, ShowsTrace};
ghost use Rattle.trace_text.specs.Traces.{IsTraceText};
ghost use Rattle.kind_main.specs.Ending.{lines_view, IfStopped, IfEnded, refused as ends_refused};
ghost use Rattle.kind_main.specs.Lines.{formless_line, past_line};
ghost use Rattle.kind_main.specs.Report.{code_of, IsReplay, IsReplayReport};
ghost use Rattle.kind_main.specs.Traced.{EndsAt, EndsAtForm, EndsAtMisfit, EndsReplay};

use crate::ending::{Report, Stopped};
use crate::fetching::fetch;
use crate::report::break_lines;
use crate::source::read_source;
use crate::status::Status;
use crate::text::{formless_text, lawful_text, past_line_text};
use kind_io::Shelf;
use kind_num::Past;
use lus_checked::Checked;
use lus_meaning::Trace;
use lus_properties::properties;
use lus_streams::owner::Owner;
use lus_tree::{Node, Pos};
use program_replay::{Replay, ReplayFault, replay};
use std::alloc::{AllocError, Global};
use term_laws::laws::{as_many_formulas, small_systems};
use trace_text::{TraceFault, read_trace};

/// The end of a command whose trace goes wrong at a place.
fn formless(alloc: Global, at: Pos) -> Stopped
    ensures { IfStopped (λ e. e ≡ ends_refused (formless_line at)) result }
{
    match formless_text(alloc, at) {
        Ok(line) => Stopped::Refused(line),
        Err(_) => Stopped::Memory,
    }
}

/// The end of a command whose trace is not read.
fn unread_trace(alloc: Global, fault: TraceFault) -> Stopped
    ensures { IfStopped (EndsAt fault) result }
{
    match fault {
        TraceFault::Form(at) => formless(alloc, at),
        TraceFault::Memory => Stopped::Memory,
    }
}

/// The trace of a text.
fn read_listing(alloc: Global, bytes: &[u8]) -> Result<Trace, Stopped>
    requires { length bytes.now ≤ 1048576 }
    ensures { MatchResult result (λ t. IsTraceText bytes.now (trace_view t)) (IfStopped (EndsAtForm bytes.now)) }
{
    match read_trace(alloc, bytes) {
        Ok(trace) => Ok(trace),
        Err(fault) => Err(unread_trace(alloc, fault)),
    }
}

/// The status of a replay, by the lines of its breaks.
fn break_status(lines: &[Vec<u8>]) -> Status
    ensures { result.code ≡ code_of (lines_view lines.now) }
{
    match lines {
        [] => Status { code: 10 },
        [_, ..] => Status { code: 1 },
    }
}

/// The node of that number among nodes and functions.
fn replayed_node(checked: &Checked, number: u32) -> &Node
    requires { number < length (nodes_of (tree_of checked.now)) }
    ensures { node_at number (tree_of checked.now) ≡ Some (node_view result.now) }
{
    match checked.program().node(number) {
        Some(node) => node,
        None => unreachable!(),
    }
}

/// What a replay shows.
fn shown(
    alloc: Global,
    checked: &Checked,
    trace: &Trace,
    replay: &Replay,
) -> Result<Report, AllocError>
    requires { ShowsTrace (tree_of checked.now) (trace_view trace.now) (replay_view replay.now) }
    ensures { IfOk result (λ r. IsReplay (tree_of checked.now) (trace_view trace.now)
        (lines_view r.lines.items) r.status.code) }
{
    small_systems();
    as_many_formulas();
    let program = checked.program();
    let node = replayed_node(checked, replay.node());
    let properties = properties(alloc, program, Owner::Node(node))?;
    let mut lines = break_lines(alloc, &properties, replay)?;
    let status = break_status(&lines);
    let last = lawful_text(alloc, replay.lawful(), trace.length)?;
    lines.push(last.into_bytes())?;
    Ok(Report { lines, status })
}

/// What is said of the first value outside 128 bits.
fn passed(alloc: Global, at: Pos, instant: u32, past: Past) -> Result<Report, AllocError>
    ensures printed { IfOk result (λ r. lines_view r.lines.items ≡ past_line at instant past ∷ []) }
    ensures status { IfOk result (λ r. r.status.code ≡ 9) }
{
    let line = past_line_text(alloc, at, instant, past)?;
    let mut lines = Vec::new(alloc);
    lines.push(line.into_bytes())?;
    Ok(Report {
        lines,
        status: Status { code: 9 },
    })
}

/// The report on the replay of a trace.
fn replay_report(alloc: Global, checked: &Checked, trace: &Trace) -> Result<Report, Stopped>
    ensures { MatchResult result (λ r. FitsProgram (tree_of checked.now) (trace_view trace.now)
        × IsReplayReport (tree_of checked.now) (trace_view trace.now) (lines_view r.lines.items) r.status.code)
        (IfStopped (EndsAtMisfit (tree_of checked.now) (trace_view trace.now))) }
{
    match replay(alloc, checked, trace) {
        Ok(replay) => Ok(shown(alloc, checked, trace, &replay)?),
        Err(ReplayFault::Past { at, instant, past }) => Ok(passed(alloc, at, instant, past)?),
        Err(ReplayFault::Form(at)) => Err(formless(alloc, at)),
        Err(ReplayFault::Memory) => Err(Stopped::Memory),
    }
}

/// Replays a trace on a source. What the shelf tells of each name stays the same.
pub fn replay_files<H: Shelf>(
    alloc: Global,
    source: &str,
    trace: &str,
    shelf: &mut H,
) -> Result<Report, Stopped>
    ensures ended { IfEnded (EndsReplay (H.told shelf.old) (H.faults shelf.old)
        (H.faults shelf.new) source.now trace.now) result }
    ensures names { (name : List ℕ) → H.told shelf.new name ≡ H.told shelf.old name }
{
    let bytes = fetch(alloc, source, shelf)?;
    let checked = read_source(alloc, &bytes)?;
    let bytes = fetch(alloc, trace, shelf)?;
    let trace = read_listing(alloc, &bytes)?;
    replay_report(alloc, &checked, &trace)
}
