//! What the lines of a trace list, where it fits.

ghost use Rattle.std.specs.Prelude.{◌≡◌, ℕ, Some, None, IfErr, IfOk, OnOk};
ghost use Rattle.lus_tree.specs.Lookup.{nodes_of};
ghost use Rattle.lus_tree.specs.Tree.{Component};
ghost use Rattle.lus_tree.specs.View.{program_view};
ghost use Rattle.lus_meaning.specs.Fits.{FitsProgram, first_named};
ghost use Rattle.lus_meaning.specs.Program.{instance_of};
ghost use Rattle.lus_meaning.specs.Refusals.{IsChecked, IsWithinLimits};
ghost use Rattle.lus_meaning.specs.TraceView.{lines_of, trace_view};
ghost use Rattle.trace_fits.specs.Given.{given_at};
ghost use Rattle.trace_fits.specs.Views.{fitted_at};
ghost use Rattle.program_replay.specs.Faults.{IsFault};

use crate::fault::ReplayFault;
use lus_meaning::Trace;
use lus_tree::Program;
use std::alloc::Global;
use trace_fits::{Fitted, fit};
use trace_text::TraceFault;

/// What the lines of a trace list, by slot, where it fits a checked program.
pub(crate) fn fitted<'t>(
    alloc: Global,
    program: &Program,
    trace: &'t Trace,
) -> Result<Fitted<'t>, ReplayFault>
    requires checked { IsChecked (program_view program.now) }
    requires within { IsWithinLimits (program_view program.now) None }
    ensures fits { OnOk result (FitsProgram (program_view program.now) (trace_view trace.now)) }
    ensures fault { IfErr result (IsFault (program_view program.now) (trace_view trace.now)) }
    ensures listed { IfOk result (λ f. (d : Component)
        → first_named (trace_view trace.now).node (nodes_of (program_view program.now)) ≡ Some d → (k n : ℕ)
        → fitted_at f k n ≡ given_at (instance_of (program_view program.now) d) (lines_of (trace_view trace.now)) k n) }
{
    match fit(alloc, program, trace) {
        Ok(fitted) => Ok(fitted),
        Err(TraceFault::Form(at)) => Err(ReplayFault::Form(at)),
        Err(TraceFault::Memory) => Err(ReplayFault::Memory),
    }
}
