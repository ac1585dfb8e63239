//! The replay of the slots of a node.

ghost use Rattle.std.specs.Prelude.{◌≡◌, ◌<◌, ℕ, Contains, IfErr, IfOk, map};
ghost use Rattle.lus_tree.specs.View.{node_view, program_view};
ghost use Rattle.lus_meaning.specs.ClockFaults.{components};
ghost use Rattle.lus_meaning.specs.Program.{instance_of};
ghost use Rattle.lus_meaning.specs.Refusals.{IsChecked};
ghost use Rattle.lus_meaning.specs.Slots.{width};
ghost use Rattle.lus_meaning.specs.TraceView.{lines_of, trace_view};
ghost use Rattle.lus_streams.specs.Owner.{owner_view};
ghost use Rattle.slot_sources.specs.Source.{source_view};
ghost use Rattle.slot_sources.specs.Sources.{HasRanks};
ghost use Rattle.slot_rows.specs.Order.{IsSlotOrder};
ghost use Rattle.slot_replay.specs.Conditions.{conditions_view};
ghost use Rattle.slot_replay.specs.Shown.{replayed_view};
ghost use Rattle.trace_fits.specs.Given.{given_at};
ghost use Rattle.trace_fits.specs.Views.{fitted_at};
ghost use Rattle.program_replay.specs.Slots.{ShowsSlots, TellsSlots};
ghost use Rattle.replay_laws.specs.OverSlots.{conditions_over};

use crate::chosen::Listed;
use crate::shapes::shapes;
use frame_conditions::{legal, properties};
use frame_sources::sources;
use lus_meaning::Trace;
use lus_streams::owner::Owner;
use lus_tree::{Node, Program};
use replay_laws::laws::shapes_choose;
use row_laws::laws::sources_have_ranks;
use slot_replay::{Conditions, Parts, ReplayFault, Replayed, replay};
use slot_rows::order;
use slot_sources::Source;
use std::alloc::{AllocError, Global};
use trace_fits::Fitted;

/// An order of slots that have ranks.
fn slot_order(alloc: Global, sources: &[Source]) -> Result<Vec<usize>, AllocError>
    requires { HasRanks (map source_view sources.now) }
    ensures { IfOk result (λ v. IsSlotOrder (map source_view sources.now) v.items) }
{
    match order(alloc, sources)? {
        Some(order) => Ok(order),
        None => unreachable!(),
    }
}

/// The conditions of a declaration over its slots.
fn conditions(alloc: Global, program: &Program, node: Owner<'_>) -> Result<Conditions, AllocError>
    requires checked { IsChecked (program_view program.now) }
    requires declared { Contains (components (program_view program.now)) (owner_view node) }
    requires small { width (instance_of (program_view program.now) (owner_view node)) < 20001 }
    ensures { IfOk result (λ q. conditions_view q
        ≡ conditions_over (instance_of (program_view program.now) (owner_view node.entry))) }
{
    let legal = legal(alloc, program, node)?;
    let properties = properties(alloc, program, node)?;
    Ok(Conditions { legal, properties })
}

/// The replay of the slots of a node, of which the lines of a trace list this, where these parts are evaluated at
/// an instant.
pub(crate) fn replay_slots<P: Parts>(
    alloc: Global,
    program: &Program,
    node: &Node,
    fitted: Fitted<'_>,
    trace: &Trace,
    parts: &P,
) -> Result<Replayed, ReplayFault>
    requires checked { IsChecked (program_view program.now) }
    requires declared { Contains (components (program_view program.now)) (node_view node.now) }
    requires small { width (instance_of (program_view program.now) (node_view node.now)) < 20001 }
    requires listed { (k n : ℕ) → fitted_at fitted k n
        ≡ given_at (instance_of (program_view program.now) (node_view node.now)) (lines_of (trace_view trace.now)) k n }
    ensures shown { IfOk result (λ r. ShowsSlots (instance_of (program_view program.now) (node_view node.now))
        (lines_of (trace_view trace.now)) (trace_view trace.now).length (P.are_parts parts.now) (replayed_view r)) }
    ensures told { IfErr result (TellsSlots (instance_of (program_view program.now) (node_view node.now))
        (lines_of (trace_view trace.now)) (trace_view trace.now).length (P.are_parts parts.now)) }
{
    sources_have_ranks();
    shapes_choose();
    let owner = Owner::Node(node);
    let shapes = shapes(alloc, program, owner)?;
    let chosen = Listed { shapes, fitted };
    let sources = sources(alloc, program, owner)?;
    let order = slot_order(alloc, &sources)?;
    let conditions = conditions(alloc, program, owner)?;
    replay(
        alloc,
        &sources,
        &order,
        &chosen,
        trace.length,
        &conditions,
        parts,
    )
}
