//! The replay of a trace.

ghost use Rattle.std.specs.Prelude.{◌≡◌, ℕ, Some, IfErr, IfOk, OnOk};
ghost use Rattle.lus_tree.specs.View.{node_view};
ghost use Rattle.lus_checked.specs.Program.{tree_of};
ghost use Rattle.lus_meaning.specs.Fits.{FitsProgram};
ghost use Rattle.lus_meaning.specs.Program.{instance_of};
ghost use Rattle.lus_meaning.specs.TraceView.{lines_of, trace_view};
ghost use Rattle.trace_fits.specs.Given.{given_at};
ghost use Rattle.trace_fits.specs.Views.{fitted_at};
ghost use Rattle.program_replay.specs.Answer.{ShowsTrace, replay_view};
ghost use Rattle.program_replay.specs.Faults.{IsFault};
ghost use Rattle.program_replay.specs.Named.{numbers_from};
ghost use Rattle.program_replay.specs.Instants.{AreNamedParts};
ghost use Rattle.program_replay.specs.NamedView.{named_view};
ghost use Rattle.program_replay.specs.Slots.{ShowsSlots};
ghost use Rattle.program_replay.specs.Told.{of_slots};
ghost use Rattle.slot_replay.specs.Shown.{replayed_view};

use crate::answer::Replay;
use crate::fault::ReplayFault;
use crate::fitted::fitted;
use crate::instant::Instant;
use crate::named::{Named, find_named};
use crate::slots::replay_slots;
use frame_names::frame_names;
use lus_checked::Checked;
use lus_meaning::Trace;
use replay_laws::laws::replays_tell_frames;
use slot_replay::{ReplayFault as SlotFault, Replayed};
use std::alloc::{AllocError, Global};
use trace_fits::Fitted;

/// A number as the answer has it.
fn narrowed(number: usize) -> Result<u32, AllocError>
    ensures { IfOk result (λ n. n ≡ number) }
{
    match u32::try_from(number) {
        Ok(number) => Ok(number),
        Err(_) => Err(AllocError),
    }
}

/// The same fault.
fn of_slots(fault: SlotFault) -> ReplayFault
    ensures { result ≡ of_slots fault }
{
    match fault {
        SlotFault::Past { at, instant, past } => ReplayFault::Past { at, instant, past },
        SlotFault::Memory => ReplayFault::Memory,
    }
}

/// The replay of the slots of the node that a trace names, where the trace fits and this is listed.
fn replayed(
    alloc: Global,
    checked: &Checked,
    named: Named<'_>,
    fitted: Fitted<'_>,
    trace: &Trace,
) -> Result<Replayed, ReplayFault>
    requires found { Some (named_view named)
        ≡ numbers_from 0 0 (trace_view trace.now).node (tree_of checked.now) }
    requires fits { FitsProgram (tree_of checked.now) (trace_view trace.now) }
    requires listed { (k n : ℕ) → fitted_at fitted k n
        ≡ given_at (instance_of (tree_of checked.now) (node_view named.node.now))
        (lines_of (trace_view trace.now)) k n }
    ensures shown { IfOk result (λ r. ShowsSlots (instance_of (tree_of checked.now) (node_view named.entry.node.now))
        (lines_of (trace_view trace.now)) (trace_view trace.now).length
        (AreNamedParts (tree_of checked.now) (trace_view trace.now).node) (replayed_view r)) }
    ensures fault { IfErr result (IsFault (tree_of checked.now) (trace_view trace.now)) }
{
    replays_tell_frames();
    let program = checked.program();
    let instant = Instant {
        checked,
        name: &trace.node,
    };
    match replay_slots(alloc, program, named.node, fitted, trace, &instant) {
        Ok(replayed) => Ok(replayed),
        Err(fault) => Err(of_slots(fault)),
    }
}

/// The replay of a trace on a checked program that it fits, of which it names that node and lists this.
fn replay_node(
    alloc: Global,
    checked: &Checked,
    named: Named<'_>,
    fitted: Fitted<'_>,
    trace: &Trace,
) -> Result<Replay, ReplayFault>
    requires found { Some (named_view named)
        ≡ numbers_from 0 0 (trace_view trace.now).node (tree_of checked.now) }
    requires fits { FitsProgram (tree_of checked.now) (trace_view trace.now) }
    requires listed { (k n : ℕ) → fitted_at fitted k n
        ≡ given_at (instance_of (tree_of checked.now) (node_view named.node.now))
        (lines_of (trace_view trace.now)) k n }
    ensures shows { IfOk result (λ r. ShowsTrace (tree_of checked.now) (trace_view trace.now) (replay_view r)) }
    ensures fault { IfErr result (IsFault (tree_of checked.now) (trace_view trace.now)) }
{
    replays_tell_frames();
    let node = narrowed(named.number)?;
    let program = checked.program();
    let frames = frame_names(alloc, program, named.place)?;
    let replayed = replayed(alloc, checked, named, fitted, trace)?;
    Ok(Replay {
        replayed,
        frames,
        node,
    })
}

/// The replay of a trace on a checked program.
///
/// # Errors
///
/// `Form` exactly where the trace doesn't fit the program, at the first word that doesn't; `Past` where it fits,
/// and the evaluation of its one frame meets a value outside 128 bits: the first one; `Memory` for want of memory.
pub fn replay(alloc: Global, checked: &Checked, trace: &Trace) -> Result<Replay, ReplayFault>
    // A trace that is replayed fits.
    ensures fits { OnOk result (FitsProgram (tree_of checked.now) (trace_view trace.now)) }
    // Its lines have one frame, which stays within 128 bits, and the answer is what that shows.
    ensures shows { IfOk result (λ r. ShowsTrace (tree_of checked.now) (trace_view trace.now) (replay_view r)) }
    // The first word that doesn't fit, or the first value outside.
    ensures fault { IfErr result (IsFault (tree_of checked.now) (trace_view trace.now)) }
{
    let program = checked.program();
    match find_named(program, &trace.node) {
        Some(named) => {
            let fitted = fitted(alloc, program, trace)?;
            replay_node(alloc, checked, named, fitted, trace)
        }
        None => Err(ReplayFault::Form(trace.node_at)),
    }
}
