//! The least order of the numbers of a graph.

ghost use Rattle.std.specs.Prelude.{◌≡◌, ◌<◌, ◌≤◌, ℕ, List, true, false, IfOk, MatchOption, length, take};
ghost use Rattle.lus_meaning.specs.Order.{IsLeastOrder, IsStuck, Passes};
ghost use Rattle.number_graphs.specs.Graphs.{graph_view, leads, row_at};
ghost use Rattle.number_graphs.specs.Rounds.{ArePassed, IsPassed, are_done, is_done, is_open};

use crate::graph::Graph;
use std::alloc::{AllocError, Global};

/// Whether a number is listed.
fn is_done(done: &[bool], number: usize) -> bool
    ensures { result ≡ is_done done.now number }
{
    number >= done.len() || done[number]
}

/// The first place of a row, from that one on, where nothing listed stands.
fn pass(done: &[bool], row: &[usize], from: usize) -> usize
    requires { are_done done.now (take from row.now) ≡ true }
    ensures { IsPassed done.now row.now result }
{
    let mut place = from;
    while place < row.len() && is_done(done, row[place]) {
        place += 1;
    }
    place
}

/// Whether a number is not listed, and all that it leads to is.
fn is_open(graph: &Graph, done: &[bool], passed: &mut Vec<usize>, number: usize) -> bool
    requires below { number < length (graph_view graph.now) }
    requires passed { ArePassed (graph_view graph.now) done.now passed.old.items }
    ensures open { result ≡ is_open (graph_view graph.now) done.now number }
    ensures passed { ArePassed (graph_view graph.now) done.now passed.new.items }
{
    if is_done(done, number) {
        return false;
    }
    let row = graph.row(number);
    let place = pass(done, row, passed[number]);
    passed[number] = place;
    place >= row.len()
}

/// The least number of which that holds.
fn next_open(graph: &Graph, done: &[bool], passed: &mut Vec<usize>) -> Option<usize>
    requires { ArePassed (graph_view graph.now) done.now passed.old.items }
    ensures open { MatchOption result
        ((k : ℕ) → k < length (graph_view graph.now) → is_open (graph_view graph.now) done.now k ≡ false)
        (λ k. (k < length (graph_view graph.now)) × (is_open (graph_view graph.now) done.now k ≡ true)
        × ((j : ℕ) → j < k → is_open (graph_view graph.now) done.now j ≡ false)) }
    ensures passed { ArePassed (graph_view graph.now) done.now passed.new.items }
{
    for number in 0..graph.len() {
        if is_open(graph, done, passed, number) {
            return Some(number);
        }
    }
    None
}

/// The numbers of a graph, again and again the least that is not yet listed and of which all that it
/// leads to is listed; none where some are left and none of those can be next.
///
/// # Errors
///
/// Want of memory.
pub fn least_order(alloc: Global, graph: &Graph) -> Result<Option<Vec<usize>>, AllocError>
    ensures { IfOk result (λ o. MatchOption o
        ((ks : List ℕ) × IsStuck (length (graph_view graph.now)) (Passes (leads (graph_view graph.now))) ks)
        (λ v. IsLeastOrder (length (graph_view graph.now)) (Passes (leads (graph_view graph.now))) v.items)) }
{
    let count = graph.len();
    let mut done = vec![in alloc; false; count]?;
    let mut passed = vec![in alloc; 0; count]?;
    let mut order = Vec::new(alloc);
    while order.len() < count {
        let Some(number) = next_open(graph, &done, &mut passed) else {
            return Ok(None);
        };
        done[number] = true;
        order.push(number)?;
    }
    Ok(Some(order))
}
