//! The trace of the states of a path of a node's system.

ghost use Rattle.std.specs.Prelude.{◌≡◌, ◌≢◌, ◌++◌, ◌<◌, ◌^◌, [], Contains, IfOk, length, map};
ghost use Rattle.lus_tree.specs.View.{param_view, program_view};
ghost use Rattle.lus_limits.specs.declared.calls.Way.TheVariants.{Plain};
ghost use Rattle.lus_meaning.specs.ClockFaults.{components};
ghost use Rattle.lus_meaning.specs.Program.{instance_of};
ghost use Rattle.lus_meaning.specs.Refusals.{IsChecked};
ghost use Rattle.lus_meaning.specs.Slots.{width};
ghost use Rattle.lus_meaning.specs.TraceView.{bare_line, bare_view, line_view, trace_view};
ghost use Rattle.lus_streams.specs.Owner.{owner_view};
ghost use Rattle.sys_terms.specs.Paths.{IsPath};
ghost use Rattle.sys_terms.specs.View.{states_view};
ghost use Rattle.sys_meaning.specs.Verdicts.{IsTraceOf};
ghost use Rattle.sys_meaning.specs.Path.{trace_of};
ghost use Rattle.sys_meaning.specs.System.{system_of};
ghost use Rattle.path_traces.specs.Plans.{plan_view};
ghost use Rattle.path_traces.specs.Walked.{walk};

use crate::free::behind_inputs;
use crate::lines::START;
use crate::plan::{Plan, plan_of};
use crate::tables::tables_of;
use crate::walk::{Source, Visit, visit_frame};
use lus_limits::Way;
use lus_meaning::{Trace, TraceLine};
use lus_streams::owner::Owner;
use lus_tree::{Param, Program};
use std::alloc::{AllocError, Global};
use sys_terms::State;

/// The lines of a frame that no other stands in, which lists these inputs, and of those of its calls.
fn frame_lines(
    source: &Source<'_, '_>,
    depth: usize,
    inputs: &[Param],
    plan: &Plan<'_>,
) -> Result<Vec<TraceLine>, AllocError>
    requires some { source.now.states.now ≢ [] }
    requires room { (walk (states_view source.now.states.now) (map plan_view source.now.tables.now.plans.items) depth).width
        Plain (plan_view plan.now) < 2 ^ 32 }
    ensures { IfOk result (λ v. map bare_view v.items
        ≡ (walk (states_view source.now.states.now) (map plan_view source.now.tables.now.plans.items) depth).lines
        Plain [] 0 (map param_view inputs.now ++ (plan_view plan.now).free) (plan_view plan.now)) }
{
    let listed = behind_inputs(source.alloc, inputs, &plan.free)?;
    let mut visit = Visit {
        next: 0,
        lines: Vec::new(source.alloc),
    };
    visit_frame(source, depth, &mut visit, Way::Plain, &[], &listed, plan)?;
    Ok(visit.lines)
}

/// The lines of the trace of states of the system of a declaration of a checked program.
fn lines_of(
    alloc: Global,
    program: &Program,
    node: Owner<'_>,
    states: &[State],
) -> Result<Vec<TraceLine>, AllocError>
    requires checked { IsChecked (program_view program.now) }
    requires declared { Contains (components (program_view program.now)) (owner_view node) }
    requires some { states.now ≢ [] }
    requires small { width (instance_of (program_view program.now) (owner_view node)) < 2 ^ 32 }
    ensures { IfOk result (λ v.
        IsPath (system_of (instance_of (program_view program.now) (owner_view node.entry))) (states_view states.now)
        → map bare_line (map line_view v.items)
        ≡ trace_of (instance_of (program_view program.now) (owner_view node.entry)) (states_view states.now)) }
{
    let plan = plan_of(alloc, node)?;
    let tables = tables_of(alloc, program)?;
    let source = Source {
        alloc,
        tables: &tables,
        states,
    };
    frame_lines(&source, program.decls.len(), node.inputs(), &plan)
}

/// The trace of states of the system of a node, function or contract node of a checked program. It lists the inputs,
/// and of each frame, that of the node and those of its calls and imports, the names without an equation, but for
/// imports, in each state, absent where their clocks are off, and the first value of each `pre`, which is its memory in
/// the first state. Where the states are a path it is exactly the trace of the path. It stands in no text: all its
/// places are line 1, column 1.
///
/// # Errors
///
/// Only want of memory.
pub fn trace_of(
    alloc: Global,
    program: &Program,
    node: Owner<'_>,
    states: &[State],
) -> Result<Trace, AllocError>
    requires checked { IsChecked (program_view program.now) }
    requires declared { Contains (components (program_view program.now)) (owner_view node) }
    requires some { states.now ≢ [] }
    requires few { length states.now < 2 ^ 32 }
    requires small { width (instance_of (program_view program.now) (owner_view node)) < 2 ^ 32 }
    ensures exact { IfOk result (λ t.
        IsPath (system_of (instance_of (program_view program.now) (owner_view node.entry))) (states_view states.now)
        → IsTraceOf (program_view program.now) (owner_view node.entry) (states_view states.now) (trace_view t)) }
{
    let name = String::from_str(alloc, node.name())?;
    let lines = lines_of(alloc, program, node, states)?;
    Ok(Trace {
        node: name,
        node_at: START,
        length: states.len() as u32,
        length_at: START,
        lines,
        end_at: START,
    })
}
