//! The walk over the frames of a node: its own, and for each call that of the callee, in the order of their variables.

ghost use Rattle.std.specs.Prelude.{◌≡◌, ◌≢◌, ◌++◌, ◌∷◌, ◌+◌, ◌<◌, ◌^◌, [], IfOk, OnOk, length, map, suc};
ghost use Rattle.lus_limits.specs.Calls.{call_view};
ghost use Rattle.lus_meaning.specs.TraceView.{bare_view};
ghost use Rattle.lus_streams.specs.Streams.{params_view};
ghost use Rattle.sys_terms.specs.View.{states_view};
ghost use Rattle.path_traces.specs.Plans.{free_by, held_count, own_width, plan_named, plan_view};
ghost use Rattle.path_traces.specs.Walked.{call_line, call_width, calls_lines, calls_width, own_lines, walk};

use crate::lines::{push_firsts, push_names};
use crate::plan::Plan;
use crate::tables::{Tables, plan_named};
use lus_limits::{Call, Way};
use lus_meaning::TraceLine;
use lus_tree::Param;
use std::alloc::{AllocError, Global};
use sys_terms::State;

/// The number of the first variable of the next frame, and the lines of those that were visited.
#[derive(Drop)]
pub(crate) struct Visit {
    pub(crate) next: usize,
    pub(crate) lines: Vec<TraceLine>,
}

/// Where a walk looks up what frames are of, and the states.
#[derive(Clone, Copy)]
pub(crate) struct Source<'a, 's> {
    pub(crate) alloc: Global,
    pub(crate) tables: &'s Tables<'a>,
    pub(crate) states: &'s [State],
}

/// How many variables a frame has of its own, where it runs so.
fn own_width(way: Way, plan: &Plan<'_>) -> usize
    requires { own_width way (plan_view plan.now) < 2 ^ 32 }
    ensures { result ≡ own_width way (plan_view plan.now) }
{
    let before = 1 + plan.names.params.len() + plan.memories + plan.starts;
    match way {
        Way::Import => before,
        Way::Plain | Way::Condition => { if plan.contract { before + 1 } else { before } }
    }
}

/// How many outputs the caller of a call holds.
fn held_count(call: &Call<'_>, plan: &Plan<'_>) -> usize
    ensures { result ≡ held_count (call_view call.now) (plan_view plan.now) }
{
    match call.way {
        Way::Plain | Way::Import => 0,
        Way::Condition => plan.outputs.len().min(call.defaults),
    }
}

/// The names without an equation that a frame lists where it runs so.
fn free_by<'a, 'p>(way: Way, plan: &'p Plan<'a>) -> &'p [&'a Param]
    ensures { params_view result.now ≡ free_by way (plan_view plan.now) }
{
    match way {
        Way::Import => &[],
        Way::Plain | Way::Condition => &plan.free,
    }
}

/// The way to a call's frame.
pub(crate) fn way_to(alloc: Global, path: &[u32], number: u32) -> Result<Vec<u32>, AllocError>
    ensures { IfOk result (λ v. v.items ≡ path.now ++ number ∷ []) }
{
    let mut way = path.to_vec(alloc)?;
    way.push(number)?;
    Ok(way)
}

/// The lines, and behind them those of a frame itself, whose beat has the number `base`: these names, and first values.
fn push_own(
    source: &Source<'_, '_>,
    lines: &mut Vec<TraceLine>,
    path: &[u32],
    base: usize,
    listed: &[&Param],
    plan: &Plan<'_>,
) -> Result<(), AllocError>
    requires some { source.now.states.now ≢ [] }
    requires room { base + (suc (length (plan_view plan.now).names) + (plan_view plan.now).memories) < 2 ^ 32 }
    ensures { OnOk result (map bare_view lines.new.items ≡ map bare_view lines.old.items
        ++ own_lines (states_view source.now.states.now) path.now base (params_view listed.now)
        (plan_view plan.now)) }
{
    let states = source.states;
    push_names(lines, source.alloc, path, &plan.names, base, states, listed)?;
    let variable = base + 1 + plan.names.params.len();
    push_firsts(
        lines,
        source.alloc,
        path,
        &states[0],
        variable,
        plan.memories as u32,
    )
}

/// Visits a frame, which runs so and lists these names, and those of its calls, with calls nested no deeper than
/// `depth`.
#[cycle(walk)]
pub(crate) fn visit_frame(
    source: &Source<'_, '_>,
    depth: usize,
    visit: &mut Visit,
    way: Way,
    path: &[u32],
    listed: &[&Param],
    plan: &Plan<'_>,
) -> Result<(), AllocError>
    requires some { source.now.states.now ≢ [] }
    requires room { visit.old.next
        + (walk (states_view source.now.states.now) (map plan_view source.now.tables.now.plans.items) depth).width way (plan_view plan.now)
        < 2 ^ 32 }
    ensures lines { OnOk result (map bare_view visit.new.lines.items ≡ map bare_view visit.old.lines.items
        ++ (walk (states_view source.now.states.now) (map plan_view source.now.tables.now.plans.items) depth).lines
        way path.now visit.old.next (params_view listed.now) (plan_view plan.now)) }
    ensures next { OnOk result (visit.new.next ≡ visit.old.next
        + (walk (states_view source.now.states.now) (map plan_view source.now.tables.now.plans.items) depth).width
        way (plan_view plan.now)) }
{
    let base = visit.next;
    push_own(source, &mut visit.lines, path, base, listed, plan)?;
    visit.next = base + own_width(way, plan);
    if depth == 0 {
        return Ok(());
    }
    visit_calls(source, depth - 1, visit, path, &plan.calls)
}

/// Visits what calls take, in the order of their numbers.
#[cycle(walk)]
fn visit_calls(
    source: &Source<'_, '_>,
    depth: usize,
    visit: &mut Visit,
    path: &[u32],
    calls: &[Call<'_>],
) -> Result<(), AllocError>
    requires some { source.now.states.now ≢ [] }
    requires room { visit.old.next
        + calls_width (walk (states_view source.now.states.now) (map plan_view source.now.tables.now.plans.items) depth)
        (map plan_view source.now.tables.now.plans.items) (map call_view calls.now) < 2 ^ 32 }
    ensures lines { OnOk result (map bare_view visit.new.lines.items ≡ map bare_view visit.old.lines.items
        ++ calls_lines (walk (states_view source.now.states.now) (map plan_view source.now.tables.now.plans.items) depth)
        (map plan_view source.now.tables.now.plans.items) path.now visit.old.next (map call_view calls.now)) }
    ensures next { OnOk result (visit.new.next ≡ visit.old.next
        + calls_width (walk (states_view source.now.states.now) (map plan_view source.now.tables.now.plans.items) depth)
        (map plan_view source.now.tables.now.plans.items) (map call_view calls.now)) }
{
    for call in calls {
        visit_call(source, depth, visit, path, call)?;
    }
    Ok(())
}

/// Visits what a call takes: behind what the caller holds of it, the callee's frame.
#[cycle(walk)]
fn visit_call(
    source: &Source<'_, '_>,
    depth: usize,
    visit: &mut Visit,
    path: &[u32],
    call: &Call<'_>,
) -> Result<(), AllocError>
    requires some { source.now.states.now ≢ [] }
    requires room { visit.old.next
        + call_width (walk (states_view source.now.states.now) (map plan_view source.now.tables.now.plans.items) depth)
        (call_view call.now) (plan_named (map plan_view source.now.tables.now.plans.items) (call_view call.now).callee) < 2 ^ 32 }
    ensures lines { OnOk result (map bare_view visit.new.lines.items ≡ map bare_view visit.old.lines.items
        ++ call_line (walk (states_view source.now.states.now) (map plan_view source.now.tables.now.plans.items) depth)
        path.now visit.old.next (call_view call.now)
        (plan_named (map plan_view source.now.tables.now.plans.items) (call_view call.now).callee)) }
    ensures next { OnOk result (visit.new.next ≡ visit.old.next
        + call_width (walk (states_view source.now.states.now) (map plan_view source.now.tables.now.plans.items) depth)
        (call_view call.now) (plan_named (map plan_view source.now.tables.now.plans.items) (call_view call.now).callee)) }
{
    let plan = plan_named(source.tables, &call.callee.text);
    let way = way_to(source.alloc, path, call.number)?;
    visit.next += held_count(call, plan);
    visit_frame(
        source,
        depth,
        visit,
        call.way,
        &way,
        free_by(call.way, plan),
        plan,
    )
}
