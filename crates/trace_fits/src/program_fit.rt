//! The fit of a trace to a program.

ghost use Rattle.std.specs.Prelude.{◌≡◌, ◌∷◌, [], ℕ, Some, None, IfErr, IfOk, OnOk, map};
ghost use Rattle.std.specs.List.{AllByRecursion};
ghost use Rattle.lus_tree.specs.Lookup.{nodes_of};
ghost use Rattle.lus_tree.specs.Tree.{Component};
ghost use Rattle.lus_tree.specs.View.{decl_view, node_view, param_view, program_view};
ghost use Rattle.lus_meaning.specs.Fits.{FitsProgram, first_named, listable};
ghost use Rattle.lus_meaning.specs.Program.{instance_of};
ghost use Rattle.lus_meaning.specs.Refusals.{IsChecked, IsWithinLimits};
ghost use Rattle.lus_meaning.specs.TraceView.{lines_of, trace_view};
ghost use Rattle.trace_fits.specs.Filling.{filled, no_seats, seats_needed, trace_misfit};
ghost use Rattle.trace_fits.specs.Given.{IsSlotted, given_at};
ghost use Rattle.trace_fits.specs.Refused.{Finds, IsMisfit};
ghost use Rattle.trace_fits.specs.Views.{fitted_at, listable_view, node_seen, seats_view, slotted_view};

use crate::fitted::Fitted;
use crate::fitting::trace_fits;
use crate::listing::listable;
use crate::permitted::Listable;
use crate::seats::{no_seats, seats_needed};
use crate::table::ListableTable;
use lus_meaning::Trace;
use lus_streams::owner::Owner;
use lus_tree::{Decl, Node, Program};
use std::alloc::Global;
use trace_text::TraceFault;

/// Refuses a trace at its first word behind the name of its node that doesn't fit what may be listed of the node.
fn fit_node<'a, 't>(
    alloc: Global,
    node: &Node,
    listables: &'a [Listable<'a>],
    trace: &'t Trace,
) -> Result<Fitted<'t>, TraceFault>
    ensures misfit { Finds result (trace_misfit (map slotted_view listables.now) (node_view node.now).inputs
        (no_seats (seats_needed 0 (map slotted_view listables.now))) (trace_view trace.now)) }
    ensures seats { IfOk result (λ f. seats_view f.seats.items ≡ filled (map slotted_view listables.now)
        (no_seats (seats_needed 0 (map slotted_view listables.now))) (trace_view trace.now).lines) }
{
    let table = ListableTable::new(alloc, listables)?;
    let mut seats = no_seats(alloc, seats_needed(listables))?;
    trace_fits(&table, &node.inputs, &mut seats, trace)?;
    Ok(Fitted { seats })
}

/// Whether a trace fits a checked program, of which it names that node, where these may be listed of the node for
/// as many instants as the trace has.
///
/// # Errors
///
/// `Form` exactly where it doesn't, at the first word that doesn't fit; `Memory` for want of memory.
pub fn fit_listed<'a, 't>(
    alloc: Global,
    program: &Program,
    node: &Node,
    listables: &'a [Listable<'a>],
    trace: &'t Trace,
) -> Result<Fitted<'t>, TraceFault>
    requires checked { IsChecked (program_view program.now) }
    requires named { first_named (trace_view trace.now).node (nodes_of (program_view program.now))
        ≡ Some (node_view node.now) }
    requires listables { map listable_view listables.now
        ≡ listable (trace_view trace.now).length (instance_of (program_view program.now) (node_view node.now)) }
    requires slots { AllByRecursion (IsSlotted (instance_of (program_view program.now) (node_view node.now)))
        (map slotted_view listables.now) }
    // A trace that is let through fits.
    ensures fits { OnOk result (FitsProgram (program_view program.now) (trace_view trace.now)) }
    // A place is that of the first word that doesn't.
    ensures form { IfErr result (IsMisfit (program_view program.now) (trace_view trace.now)) }
    // Each slot has what the lines list of it.
    ensures listed { IfOk result (λ f. (k n : ℕ) → fitted_at f k n ≡ given_at
        (instance_of (program_view program.now) (node_view node.now)) (lines_of (trace_view trace.now)) k n) }
{
    let _ = program;
    fit_node(alloc, node, listables, trace)
}

/// The declaration, where it is a node or function of that name.
fn if_named<'a>(decl: &'a Decl, name: &str) -> Option<&'a Node>
    ensures { node_seen result ≡ first_named name.now (nodes_of (decl_view decl.now ∷ [])) }
{
    match decl {
        Decl::Constant(_) | Decl::Contract(_) => None,
        Decl::Node(node) => {
            if name == node.name.text.as_str() {
                Some(node)
            } else {
                None
            }
        }
    }
}

/// The first node or function of that name.
fn node_named<'a>(program: &'a Program, name: &str) -> Option<&'a Node>
    ensures { node_seen result ≡ first_named name.now (nodes_of (program_view program.now)) }
{
    for decl in &program.decls {
        if let Some(node) = if_named(decl, name) {
            return Some(node);
        }
    }
    None
}

/// Whether a trace fits a checked program that is within the limits. Where it does, what its lines list, by slot.
///
/// # Errors
///
/// `Form` exactly where it doesn't, at the first word that doesn't fit: a missing input at the word `end`; `Memory` for
/// want of memory.
pub fn fit<'t>(alloc: Global, program: &Program, trace: &'t Trace) -> Result<Fitted<'t>, TraceFault>
    requires checked { IsChecked (program_view program.now) }
    requires within { IsWithinLimits (program_view program.now) None }
    // A trace that is let through fits.
    ensures fits { OnOk result (FitsProgram (program_view program.now) (trace_view trace.now)) }
    // A place is that of the first word that doesn't.
    ensures form { IfErr result (IsMisfit (program_view program.now) (trace_view trace.now)) }
    // Each slot of the named node's system has what the lines list of it.
    ensures listed { IfOk result (λ f. (d : Component)
        → first_named (trace_view trace.now).node (nodes_of (program_view program.now)) ≡ Some d → (k n : ℕ)
        → fitted_at f k n ≡ given_at (instance_of (program_view program.now) d) (lines_of (trace_view trace.now)) k n) }
{
    let Some(node) = node_named(program, &trace.node) else {
        return Err(TraceFault::Form(trace.node_at));
    };
    let listables = listable(alloc, program, Owner::Node(node), trace.length)?;
    fit_listed(alloc, program, node, &listables, trace)
}
