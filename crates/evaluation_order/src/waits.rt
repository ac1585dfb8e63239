//! For which parts each part waits, and the least order by that.

ghost use Rattle.std.specs.Prelude.{◌≡◌, ◌+◌, [], ℕ, List, IfOk, MatchOption, length};
ghost use Rattle.lus_meaning.specs.Order.{IsLeastOrder, IsStuck};
ghost use Rattle.lus_evaluation.specs.Evaluation.{Waits, is_above};
ghost use Rattle.number_graphs.specs.Graphs.{graph_view, is_marked};
ghost use Rattle.evaluation_parts.specs.PartViews.{filled, parts_view};
ghost use Rattle.evaluation_parts.specs.Views.{frame_instance};
ghost use Rattle.evaluation_order.specs.GiverViews.{AreFound, IsFound, givers_view};
ghost use Rattle.evaluation_order.specs.Givers.{given_above};

use crate::givers::{Giver, givers_of};
use crate::needs_graph::needs_graph;
use crate::places::places_of;
use evaluation_parts::frame::Frame;
use evaluation_parts::part::Part;
use number_graphs::graph::Graph;
use number_graphs::least_order::least_order;
use number_graphs::reach::reached;
use std::alloc::{AllocError, Global};

/// Whether the one way of calls is the other, or leads to a frame on the way there.
fn is_above(first: &[u32], second: &[u32]) -> bool
    ensures { result ≡ is_above first.now second.now }
{
    match first {
        [] => true,
        [call, first @ ..] => match second {
            [] => false,
            [other, second @ ..] => *call == *other && is_above(first, second),
        },
    }
}

/// Whether a number is marked.
fn is_marked(marks: &[bool], number: usize) -> bool
    ensures { result ≡ is_marked marks.now number }
{
    number < marks.len() && marks[number]
}

/// The parts of those givers at whose places there are marks, of a frame or above.
fn given_above(
    alloc: Global,
    marks: &[bool],
    way: &[u32],
    givers: &[Giver<'_>],
) -> Result<Vec<usize>, AllocError>
    ensures { IfOk result (λ v. v.items ≡ given_above marks.now way.now (givers_view givers.now)) }
{
    let mut row = Vec::new(alloc);
    for giver in givers {
        if is_above(giver.way, way) && is_marked(marks, giver.place) {
            row.push(giver.part)?;
        }
    }
    Ok(row)
}

/// The parts for which a part waits, whose number in the graph of needs that is.
fn found_for(
    alloc: Global,
    graph: &Graph,
    number: usize,
    part: &Part<'_>,
    givers: &[Giver<'_>],
) -> Result<Vec<usize>, AllocError>
    ensures { IfOk result (λ v. IsFound (graph_view graph.now) number (filled [] part.now).way
        (givers_view givers.now) v.items) }
{
    let marks = reached(alloc, graph, number)?;
    given_above(alloc, &marks, &part.way, givers)
}

/// The same of each part. The first has that number in the graph of needs, and the last the last.
fn waits_graph(
    alloc: Global,
    graph: &Graph,
    first: usize,
    parts: &[Part<'_>],
    givers: &[Giver<'_>],
) -> Result<Graph, AllocError>
    requires { length (graph_view graph.now) ≡ first + length (parts_view parts.now) }
    ensures { IfOk result (λ g. AreFound (graph_view graph.now) first (parts_view parts.now) (givers_view givers.now)
        (length (parts_view parts.now)) (graph_view g)) }
{
    let mut waits = Graph::new(alloc);
    for number in first..graph.len() {
        waits.push(found_for(alloc, graph, number, &parts[number - first], givers)?)?;
    }
    Ok(waits)
}

/// The parts of an instant, again and again the first that is not yet listed and for which it waits for none that
/// is not; none where some are left and none of those can be next.
///
/// # Errors
///
/// Want of memory.
pub fn order_of<'a>(
    alloc: Global,
    frame: Frame<'a, '_>,
    parts: &[Part<'a>],
) -> Result<Option<Vec<usize>>, AllocError>
    ensures { IfOk result (λ o. MatchOption o
        ((ks : List ℕ) × IsStuck (length (parts_view parts.now))
        (Waits (frame_instance frame.entry) (parts_view parts.now)) ks)
        (λ v. IsLeastOrder (length (parts_view parts.now))
        (Waits (frame_instance frame.entry) (parts_view parts.now)) v.items)) }
{
    let places = places_of(alloc, frame, parts)?;
    let graph = needs_graph(alloc, frame, &places, parts)?;
    let givers = givers_of(alloc, &places, parts)?;
    let waits = waits_graph(alloc, &graph, places.len(), parts, &givers)?;
    match least_order(alloc, &waits)? {
        Some(order) => Ok(Some(order)),
        None => Ok(None),
    }
}
