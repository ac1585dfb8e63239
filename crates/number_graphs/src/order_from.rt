//! The least order of some numbers of a graph, by what they lead to through any of its numbers.

ghost use Rattle.std.specs.Prelude.{◌≡◌, ◌-◌, IfOk, MatchOption, length};
ghost use Rattle.lus_meaning.specs.Order.{IsLeastOrder};
ghost use Rattle.number_graphs.specs.Graphs.{HasCircle, LeadsFrom, from_on, graph_view};

use crate::graph::Graph;
use crate::least_order::least_order;
use std::alloc::{AllocError, Global};

/// Those of the numbers that are no less than the start, counted from it.
fn numbers_from(alloc: Global, numbers: &[usize], start: usize) -> Result<Vec<usize>, AllocError>
    ensures { IfOk result (λ v. v.items ≡ from_on start numbers.now) }
{
    let mut rest = Vec::new(alloc);
    for number in numbers {
        if *number >= start {
            rest.push(*number - start)?;
        }
    }
    Ok(rest)
}

/// The numbers of a graph from the start on, counted from it, again and again the least that is not
/// yet listed and of which all of them that it leads to by one step or several is listed; none where
/// some number of the graph leads to itself.
///
/// # Errors
///
/// Want of memory.
pub fn order_from(
    alloc: Global,
    graph: &Graph,
    start: usize,
) -> Result<Option<Vec<usize>>, AllocError>
    ensures { IfOk result (λ o. MatchOption o (HasCircle (graph_view graph.now))
        (λ v. IsLeastOrder (length (graph_view graph.now) - start) (LeadsFrom (graph_view graph.now) start) v.items)) }
{
    match least_order(alloc, graph)? {
        Some(order) => Ok(Some(numbers_from(alloc, &order, start)?)),
        None => Ok(None),
    }
}
