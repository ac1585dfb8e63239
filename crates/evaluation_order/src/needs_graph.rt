//! The graph of what places and parts need.

ghost use Rattle.std.specs.Prelude.{◌≡◌, ◌++◌, [], IfOk, OnOk};
ghost use Rattle.number_graphs.specs.Graphs.{graph_view};
ghost use Rattle.evaluation_parts.specs.PartViews.{filled, parts_view, place_view, places_view};
ghost use Rattle.evaluation_parts.specs.Views.{frame_instance};
ghost use Rattle.evaluation_order.specs.Numbered.{need_rows, next_of, numbers_of, part_rows, place_rows};

use crate::next::next_of;
use crate::places::numbers_of;
use evaluation_parts::frame::Frame;
use evaluation_parts::part::{Needed, Part};
use number_graphs::graph::Graph;
use std::alloc::{AllocError, Global};

/// The numbers of what a place needs.
fn place_row(
    alloc: Global,
    frame: Frame<'_, '_>,
    places: &[Needed<'_>],
    place: &Needed<'_>,
) -> Result<Vec<usize>, AllocError>
    ensures { IfOk result (λ v. v.items
        ≡ numbers_of (places_view places.now) (next_of (frame_instance frame.entry) (place_view place.now))) }
{
    let next = next_of(alloc, frame, place)?;
    numbers_of(alloc, places, &next)
}

/// The graph, and behind it the rows of these places.
fn push_place_rows(
    alloc: Global,
    graph: &mut Graph,
    frame: Frame<'_, '_>,
    places: &[Needed<'_>],
) -> Result<(), AllocError>
    ensures { OnOk result (graph_view graph.new
        ≡ graph_view graph.old ++ place_rows (frame_instance frame.entry) (places_view places.now)
        (places_view places.now)) }
{
    for place in places {
        graph.push(place_row(alloc, frame, places, place)?)?;
    }
    Ok(())
}

/// The numbers of what a part needs.
fn part_row(alloc: Global, places: &[Needed<'_>], part: &Part<'_>) -> Result<Vec<usize>, AllocError>
    ensures { IfOk result (λ v. v.items ≡ numbers_of (places_view places.now) (filled [] part.now).needs) }
{
    match &part.whole.needs {
        Some(needs) => numbers_of(alloc, places, needs.as_slice()),
        None => Ok(Vec::new(alloc)),
    }
}

/// The graph, and behind it the rows of these parts.
fn push_part_rows(
    alloc: Global,
    graph: &mut Graph,
    places: &[Needed<'_>],
    parts: &[Part<'_>],
) -> Result<(), AllocError>
    ensures { OnOk result (graph_view graph.new ≡ graph_view graph.old
        ++ part_rows (places_view places.now) (parts_view parts.now)) }
{
    for part in parts {
        graph.push(part_row(alloc, places, part)?)?;
    }
    Ok(())
}

/// The graph in which places, and behind them parts, lead to what they need.
///
/// # Errors
///
/// Want of memory.
pub(crate) fn needs_graph(
    alloc: Global,
    frame: Frame<'_, '_>,
    places: &[Needed<'_>],
    parts: &[Part<'_>],
) -> Result<Graph, AllocError>
    ensures { IfOk result (λ g. graph_view g
        ≡ need_rows (frame_instance frame.entry) (places_view places.now) (parts_view parts.now)) }
{
    let mut graph = Graph::new(alloc);
    push_place_rows(alloc, &mut graph, frame, places)?;
    push_part_rows(alloc, &mut graph, places, parts)?;
    Ok(graph)
}
