//! On which inputs outputs depend at the same instant.

ghost use Rattle.std.specs.Prelude.{◌≡◌, ◌∷◌, ◌++◌, [], IfOk, cond, map};
ghost use Rattle.lus_tree.specs.View.{param_view};
ghost use Rattle.number_graphs.specs.Graphs.{graph_view, is_marked};
ghost use Rattle.lus_order.specs.MarkedBelow.{AreLed, AreLedBelow, IsLedBelow, marked_below};

use lus_tree::Param;
use name_table::NameTable;
use number_graphs::graph::Graph;
use number_graphs::reach::reached;
use std::alloc::{AllocError, Global};

/// The numbers, and behind them that one, where it is marked.
fn push_marked(numbers: &mut Vec<usize>, marks: &[bool], number: usize) -> Result<(), AllocError>
    ensures { IfOk result (λ _. numbers.new.items
        ≡ numbers.old.items ++ cond (is_marked marks.now number) (number ∷ []) []) }
{
    if number < marks.len() && marks[number] {
        numbers.push(number)?;
    }
    Ok(())
}

/// The numbers below a count that are marked, ascending.
fn marked_below(alloc: Global, marks: &[bool], count: usize) -> Result<Vec<usize>, AllocError>
    ensures { IfOk result (λ v. v.items ≡ marked_below marks.now count) }
{
    let mut numbers = Vec::new(alloc);
    for number in 0..count {
        push_marked(&mut numbers, marks, number)?;
    }
    Ok(numbers)
}

/// The numbers below a count that a number leads to, ascending.
fn led_below(
    alloc: Global,
    graph: &Graph,
    start: usize,
    count: usize,
) -> Result<Vec<usize>, AllocError>
    ensures { IfOk result (λ v. AreLedBelow (graph_view graph.now) start count v.items) }
{
    let marks = reached(alloc, graph, start)?;
    marked_below(alloc, &marks, count)
}

/// The numbers below a count that a name leads to, ascending; none where it has no number.
fn name_leads(
    alloc: Global,
    graph: &Graph,
    names: &NameTable,
    count: usize,
    name: &str,
) -> Result<Vec<usize>, AllocError>
    ensures { IfOk result (λ v. IsLedBelow (graph_view graph.now) names.now count name.now v.items) }
{
    match names.number(name) {
        Some(start) => led_below(alloc, graph, start, count),
        None => Ok(Vec::new(alloc)),
    }
}

/// For each of these outputs the inputs that it leads to, which have the numbers below their count.
///
/// # Errors
///
/// Want of memory.
pub(crate) fn output_reads(
    alloc: Global,
    graph: &Graph,
    names: &NameTable,
    count: usize,
    outputs: &[Param],
) -> Result<Vec<Vec<usize>>, AllocError>
    ensures { IfOk result (λ v. AreLed (graph_view graph.now) names.now count
        (map param_view outputs.now) (map (λ r. r.items) v.items)) }
{
    let mut reads = Vec::new(alloc);
    for output in outputs {
        let read = name_leads(alloc, graph, names, count, &output.name.text)?;
        reads.push(read)?;
    }
    Ok(reads)
}
