//! The numbers of a graph that lead to themselves.

ghost use Rattle.std.specs.Prelude.{◌≡◌, ◌<◌, ◌↔◌, true, IfOk, IsTrue, length};
ghost use Rattle.number_graphs.specs.Graphs.{AreOnCircles, HasOrder, LeadsTo, graph_view};

use crate::graph::Graph;
use crate::least_order::least_order;
use crate::reach::reached;
use std::alloc::{AllocError, Global};

/// Whether a number leads to itself.
fn leads_to_itself(alloc: Global, graph: &Graph, number: usize) -> Result<bool, AllocError>
    requires { number < length (graph_view graph.now) }
    ensures { IfOk result (λ b. IsTrue b ↔ LeadsTo (graph_view graph.now) number number) }
{
    let marks = reached(alloc, graph, number)?;
    Ok(marks[number])
}

/// Marks the numbers that lead to themselves, each by a search of its own.
fn marked_by_search(alloc: Global, graph: &Graph) -> Result<Vec<bool>, AllocError>
    ensures { IfOk result (λ v. AreOnCircles (graph_view graph.now) v.items) }
{
    let mut marks = Vec::new(alloc);
    for number in 0..graph.len() {
        marks.push(leads_to_itself(alloc, graph, number)?)?;
    }
    Ok(marks)
}

/// Whether the numbers can be ordered, so that each stands behind those that it leads to.
fn is_ordered(alloc: Global, graph: &Graph) -> Result<bool, AllocError>
    ensures { IfOk result (λ b. b ≡ true → HasOrder (graph_view graph.now)) }
{
    match least_order(alloc, graph)? {
        Some(_) => Ok(true),
        None => Ok(false),
    }
}

/// Marks the numbers that lead to themselves by one step or several. Where the numbers can be
/// ordered there are none, and nothing is searched.
///
/// # Errors
///
/// Want of memory.
pub fn on_circles(alloc: Global, graph: &Graph) -> Result<Vec<bool>, AllocError>
    ensures { IfOk result (λ v. AreOnCircles (graph_view graph.now) v.items) }
{
    if is_ordered(alloc, graph)? {
        let marks = vec![in alloc; false; graph.len()]?;
        return Ok(marks);
    }
    marked_by_search(alloc, graph)
}
