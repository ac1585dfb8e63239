//! The own graph of a declaration by numbers.

ghost use Rattle.std.specs.Prelude.{◌≡◌, ◌++◌, ◌∷◌, ◌<◌, [], IfOk, flat_map, length, map};
ghost use Rattle.lus_tree.specs.Tree.{text_of};
ghost use Rattle.number_graphs.specs.Graphs.{graph_view};
ghost use Rattle.lus_order.specs.Names.{words_view};
ghost use Rattle.lus_order.specs.OwnRows.{clock_rows, numbers_of, own_rows, with_edge, with_equation, with_left, with_lefts};
ghost use Rattle.lus_order.specs.Reads.{clock_seen};
ghost use Rattle.lus_order.specs.Rows.{clock_row, equation_row, modes_view, side_clock};
ghost use Rattle.lus_order.specs.Sides.{equation_view, equations_view};

use crate::rows::{Mode, push_expression, push_number};
use crate::setting::{Callees, Clocks};
use crate::sides::Side;
use lus_tree::PlacedName;
use name_table::NameTable;
use number_graphs::graph::Graph;
use std::alloc::{AllocError, Global};

/// The row, and behind it the number of the clock of a name, where it has one.
fn push_clock_number(
    row: &mut Vec<usize>,
    clocks: &Clocks<'_>,
    name: &str,
) -> Result<(), AllocError>
    ensures { IfOk result (λ _. row.new.items ≡ row.old.items ++ clock_row clocks.now name.now) }
{
    if let Some(clock) = clocks.clock(name) {
        push_number(row, &clocks.names, clock)?;
    }
    Ok(())
}

/// The row, and behind it the numbers of the clocks of these names.
fn push_clock_numbers(
    row: &mut Vec<usize>,
    clocks: &Clocks<'_>,
    words: &[&PlacedName],
) -> Result<(), AllocError>
    ensures { IfOk result (λ _. row.new.items
        ≡ row.old.items ++ flat_map (clock_row clocks.now) (map text_of (words_view words.now))) }
{
    for word in words {
        push_clock_number(row, clocks, &word.text)?;
    }
    Ok(())
}

/// The clock of an equation of these left names.
fn side_clock<'a>(clocks: &Clocks<'a>, words: &[&PlacedName]) -> Option<&'a str>
    ensures { clock_seen result ≡ side_clock clocks.now (map text_of (words_view words.now)) }
{
    match words {
        [] => None,
        [word, ..] => clocks.clock(&word.text),
    }
}

/// What an equation reads, with the clocks of its left names.
fn equation_row<'a>(
    alloc: Global,
    clocks: &Clocks<'a>,
    callees: &Callees,
    modes: &[Mode<'a>],
    side: &Side<'a>,
) -> Result<Vec<usize>, AllocError>
    ensures { IfOk result (λ v. v.items
        ≡ equation_row clocks.now callees.now (modes_view modes.now) (equation_view side.now)) }
{
    let mut row = Vec::new(alloc);
    push_clock_numbers(&mut row, clocks, &side.words)?;
    let clock = side_clock(clocks, &side.words);
    push_expression(alloc, &mut row, clocks, callees, modes, clock, side.right)?;
    Ok(row)
}

/// The numbers of a name, where there is one and it has a number.
fn numbers_of(
    alloc: Global,
    names: &NameTable,
    name: Option<&str>,
) -> Result<Vec<usize>, AllocError>
    ensures { IfOk result (λ v. v.items ≡ numbers_of names.now (clock_seen name.entry)) }
{
    let mut row = Vec::new(alloc);
    if let Some(name) = name {
        push_number(&mut row, names, name)?;
    }
    Ok(row)
}

/// The graph in which each stream leads to that of its clock.
fn clock_rows(alloc: Global, clocks: &Clocks<'_>) -> Result<Graph, AllocError>
    ensures { IfOk result (λ g. graph_view g ≡ clock_rows clocks.now) }
{
    let mut graph = Graph::new(alloc);
    for clock in &clocks.clocks {
        graph.push(numbers_of(alloc, &clocks.names, *clock)?)?;
    }
    Ok(graph)
}

/// The graph, where one number leads to one more.
fn add_edge(graph: &mut Graph, number: usize, to: usize) -> Result<(), AllocError>
    ensures { IfOk result (λ _. graph_view graph.new ≡ with_edge (graph_view graph.old) number to) }
{
    if number < graph.rows.len() {
        let row = &mut graph.rows[number];
        row.push(to)?;
    }
    Ok(())
}

/// The graph, where a name leads to one more number.
fn add_left(graph: &mut Graph, names: &NameTable, name: &str, to: usize) -> Result<(), AllocError>
    ensures { IfOk result (λ _. graph_view graph.new ≡ with_left names.now to (graph_view graph.old) name.now) }
{
    match names.number(name) {
        Some(number) => add_edge(graph, number, to),
        None => Ok(()),
    }
}

/// The graph, where these names lead to one more number.
fn add_lefts(
    graph: &mut Graph,
    names: &NameTable,
    words: &[&PlacedName],
    to: usize,
) -> Result<(), AllocError>
    ensures { IfOk result (λ _. graph_view graph.new
        ≡ with_lefts names.now to (graph_view graph.old) (map text_of (words_view words.now))) }
{
    for word in words {
        add_left(graph, names, &word.text, to)?;
    }
    Ok(())
}

/// The graph with one more equation.
fn add_equation<'a>(
    alloc: Global,
    graph: &mut Graph,
    clocks: &Clocks<'a>,
    callees: &Callees,
    modes: &[Mode<'a>],
    side: &Side<'a>,
) -> Result<(), AllocError>
    ensures { IfOk result (λ _. graph_view graph.new ≡ with_equation clocks.now callees.now (modes_view modes.now)
        (graph_view graph.old) (equation_view side.now)) }
{
    let number = graph.len();
    add_lefts(graph, &clocks.names, &side.words, number)?;
    graph.push(equation_row(alloc, clocks, callees, modes, side)?)
}

/// The own graph of a declaration: a stream leads to that of its clock and to the equations that define it, and an
/// equation to the streams that it reads.
///
/// # Errors
///
/// Want of memory.
pub(crate) fn own_rows<'a>(
    alloc: Global,
    clocks: &Clocks<'a>,
    callees: &Callees,
    modes: &[Mode<'a>],
    sides: &[Side<'a>],
) -> Result<Graph, AllocError>
    ensures { IfOk result (λ g. graph_view g
        ≡ own_rows clocks.now callees.now (modes_view modes.now) (equations_view sides.now)) }
{
    let mut graph = clock_rows(alloc, clocks)?;
    for side in sides {
        add_equation(alloc, &mut graph, clocks, callees, modes, side)?;
    }
    Ok(graph)
}
