//! What is found from a row of numbers, and which names that are.

ghost use Rattle.std.specs.Prelude.{◌≡◌, ◌++◌, ◌∷◌, [], ◌≤◌, IfOk, length};
ghost use Rattle.lus_order.specs.MarkedNames.{AreFound, is_marked_name, with_marked};
ghost use Rattle.number_graphs.specs.Graphs.{AreReached, graph_view};
ghost use Rattle.lus_order.specs.Library.{texts_seen};
ghost use Rattle.lus_order.specs.OwnRows.{numbers_of};

use crate::rows::push_number;
use name_table::NameTable;
use number_graphs::graph::Graph;
use number_graphs::reach::reached;
use std::alloc::{AllocError, Global};

/// Marks the numbers to which one with that row leads by one step or several. The graph is as it was.
pub(crate) fn reached_from(
    alloc: Global,
    graph: &mut Graph,
    row: Vec<usize>,
) -> Result<Vec<bool>, AllocError>
    ensures same { IfOk result (λ _. graph_view graph.new ≡ graph_view graph.old) }
    ensures reached { IfOk result (λ v. AreReached (graph_view graph.old ++ row.items ∷ [])
        (length (graph_view graph.old)) v.items) }
{
    let start = graph.len();
    graph.push(row)?;
    let marks = reached(alloc, graph, start)?;
    graph.rows.pop();
    Ok(marks)
}

/// Whether a name is marked, by its number.
pub(crate) fn is_marked_name(marks: &[bool], names: &NameTable, name: &str) -> bool
    ensures { result ≡ is_marked_name marks.now names.now name.now }
{
    match names.number(name) {
        Some(number) => number < marks.len() && marks[number],
        None => false,
    }
}

/// The table, and in it those of these names that are marked.
fn add_marked(
    alloc: Global,
    table: &mut NameTable,
    marks: &[bool],
    names: &NameTable,
    texts: &[&str],
) -> Result<(), AllocError>
    ensures { IfOk result (λ _. table.new ≡ with_marked marks.now names.now table.old (texts_seen texts.now)) }
{
    for text in texts {
        if is_marked_name(marks, names, *text) {
            table.add(alloc, *text)?;
        }
    }
    Ok(())
}

/// Those of the inputs and outputs to which one with that row leads by one step or several. The graph is as it was.
///
/// # Errors
///
/// Want of memory.
pub(crate) fn found_names(
    alloc: Global,
    graph: &mut Graph,
    names: &NameTable,
    row: Vec<usize>,
    inputs: &[&str],
    outputs: &[&str],
) -> Result<NameTable, AllocError>
    requires { length names.now ≤ length (graph_view graph.old) }
    ensures same { IfOk result (λ _. graph_view graph.new ≡ graph_view graph.old) }
    ensures found { IfOk result (λ t. AreFound (graph_view graph.old) names.now row.items
        (texts_seen inputs.now ++ texts_seen outputs.now) t) }
{
    let marks = reached_from(alloc, graph, row)?;
    let mut table = NameTable::new(alloc);
    add_marked(alloc, &mut table, &marks, names, inputs)?;
    add_marked(alloc, &mut table, &marks, names, outputs)?;
    Ok(table)
}

/// The numbers of names, of those that have one.
pub(crate) fn numbers_of(
    alloc: Global,
    names: &NameTable,
    texts: &[&str],
) -> Result<Vec<usize>, AllocError>
    ensures { IfOk result (λ v. v.items ≡ numbers_of names.now (texts_seen texts.now)) }
{
    let mut row = Vec::new(alloc);
    for text in texts {
        push_number(&mut row, names, *text)?;
    }
    Ok(row)
}
