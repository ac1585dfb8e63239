//! The circles of declarations, and the orders of their equations.

ghost use Rattle.std.specs.Prelude.{◌≤◌, IfOk, length, map};
ghost use Rattle.lus_meaning.specs.Scene.{variables};
ghost use Rattle.lus_meaning.specs.WellMade.{AreDistinct};
ghost use Rattle.lus_scopes.specs.Least.{least_view};
ghost use Rattle.lus_order.specs.Backs.{IsClosed};
ghost use Rattle.lus_order.specs.Dependences.{inputs_seen};
ghost use Rattle.number_graphs.specs.Graphs.{graph_view};
ghost use Rattle.lus_order.specs.MarkedBelow.{AreLed};
ghost use Rattle.lus_order.specs.Library.{library_view};
ghost use Rattle.lus_order.specs.OutputReads.{AreReads, LeadsOne};
ghost use Rattle.lus_order.specs.Ordered.{IsOrdered, NotesCircles, NotesOwn};
ghost use Rattle.lus_streams.specs.Owner.{owner_view};
ghost use Rattle.lus_order.specs.OwnReads.{AreFlagsOf};
ghost use Rattle.lus_order.specs.Reads.{callees_view};
ghost use Rattle.lus_order.specs.Streams.{names_of};

use crate::circle_faults::{flags_of, note_flagged};
use crate::clock_circles::{clock_marks, note_marked};
use crate::dependence::Dependence;
use crate::library::Library;
use crate::output_reads::output_reads;
use crate::own::{Own, own_of};
use lus_scopes::least::Least;
use lus_streams::owner::Owner;
use std::alloc::{AllocError, Global};

/// Notes the equations that are on circles, and the streams whose clocks go in a circle.
fn note_circles(alloc: Global, least: &mut Least, own: &mut Own<'_>) -> Result<(), AllocError>
    requires within { length own.old.clocks.names ≤ length (graph_view own.old.graph) }
    requires closed { IsClosed (graph_view own.old.graph) }
    ensures { IfOk result (λ _. NotesOwn own.old (least_view least.old) (least_view least.new)) }
{
    let marks = clock_marks(alloc, &own.clocks, &own.sides)?;
    let flags = flags_of(alloc, &mut own.graph, &own.clocks.names, &own.sides)?;
    note_flagged(least, &own.sides, &flags);
    note_marked(least, &own.params, &marks);
    Ok(())
}

/// For each output of a declaration the inputs to which it leads.
fn own_reads(alloc: Global, own: &Own<'_>, owner: Owner<'_>) -> Result<Vec<Vec<usize>>, AllocError>
    ensures { IfOk result (λ v. AreLed (graph_view own.now.graph) own.now.clocks.names
        (length (owner_view owner.entry).inputs) (owner_view owner.entry).outputs (map (λ r. r.items) v.items)) }
{
    let count = owner.inputs().len();
    output_reads(alloc, &own.graph, &own.clocks.names, count, owner.outputs())
}

/// Notes the faults of circles of a declaration, and gives the order of its equations, which is empty where there
/// is none, and what its outputs read.
///
/// # Errors
///
/// Want of memory.
pub(crate) fn ordered<'a>(
    alloc: Global,
    least: &mut Least,
    library: &Library<'a>,
    owner: Owner<'a>,
) -> Result<Dependence, AllocError>
    requires distinct { AreDistinct (names_of (variables (owner_view owner))) }
    requires flags { AreFlagsOf (library_view library.now) (callees_view library.now.callees) }
    ensures noted { IfOk result (λ _. NotesCircles (owner_view owner.entry) (library_view library.now)
        (least_view least.old) (least_view least.new)) }
    ensures order { IfOk result (λ d. IsOrdered (owner_view owner.entry) (library_view library.now) d.order.items) }
    ensures reads { IfOk result (λ d. AreReads (LeadsOne (owner_view owner.entry) (library_view library.now))
        (owner_view owner.entry).inputs (owner_view owner.entry).outputs (inputs_seen d)) }
{
    let mut own = own_of(alloc, library, owner)?;
    let order = own.order(alloc)?;
    let reads = own_reads(alloc, &own, owner)?;
    note_circles(alloc, least, &mut own)?;
    match order {
        Some(order) => Ok(Dependence { order, reads }),
        None => Ok(Dependence {
            order: Vec::new(alloc),
            reads,
        }),
    }
}
