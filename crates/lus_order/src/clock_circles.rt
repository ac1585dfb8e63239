//! Clocks in a circle among names without an equation.

ghost use Rattle.std.specs.Prelude.{◌≡◌, [], IfOk, map};
ghost use Rattle.lus_tree.specs.Tree.{text_of};
ghost use Rattle.lus_scopes.specs.Least.{least_view, noted_all};
ghost use Rattle.lus_order.specs.ClockCircles.{free_of, free_rows, marked_faults};
ghost use Rattle.number_graphs.specs.Graphs.{AreOnCircles, graph_view};
ghost use Rattle.lus_order.specs.Names.{words_view};
ghost use Rattle.lus_order.specs.OwnRows.{numbers_of};
ghost use Rattle.lus_order.specs.Reads.{clock_seen};
ghost use Rattle.lus_order.specs.Sides.{equations_view};
ghost use Rattle.lus_order.specs.Streams.{params_view, with_all, with_sides};

use crate::rows::push_number;
use crate::setting::Clocks;
use crate::sides::Side;
use lus_scopes::least::Least;
use lus_tree::{Param, PlacedName, What};
use name_table::NameTable;
use number_graphs::circles::on_circles;
use number_graphs::graph::Graph;
use std::alloc::{AllocError, Global};

/// The table, and in it these left names.
fn add_words(alloc: Global, table: &mut NameTable, words: &[&PlacedName]) -> Result<(), AllocError>
    ensures { IfOk result (λ _. table.new ≡ with_all table.old (map text_of (words_view words.now))) }
{
    for word in words {
        table.add(alloc, &word.text)?;
    }
    Ok(())
}

/// The left names of equations, each once.
fn lefts_of(alloc: Global, sides: &[Side<'_>]) -> Result<NameTable, AllocError>
    ensures { IfOk result (λ t. t ≡ with_sides [] (equations_view sides.now)) }
{
    let mut table = NameTable::new(alloc);
    for side in sides {
        add_words(alloc, &mut table, &side.words)?;
    }
    Ok(table)
}

/// The number of a clock's name, where no equation defines it.
fn free_row(
    alloc: Global,
    names: &NameTable,
    lefts: &NameTable,
    clock: Option<&str>,
) -> Result<Vec<usize>, AllocError>
    ensures { IfOk result (λ v. v.items ≡ numbers_of names.now (free_of lefts.now (clock_seen clock.entry))) }
{
    let mut row = Vec::new(alloc);
    if let Some(name) = clock {
        if !lefts.has(name) {
            push_number(&mut row, names, name)?;
        }
    }
    Ok(row)
}

/// Each stream leads to that of its clock, where no equation defines this.
fn free_rows(alloc: Global, clocks: &Clocks<'_>, lefts: &NameTable) -> Result<Graph, AllocError>
    ensures { IfOk result (λ g. graph_view g ≡ free_rows clocks.now lefts.now) }
{
    let mut graph = Graph::new(alloc);
    for clock in &clocks.clocks {
        let row = free_row(alloc, &clocks.names, lefts, *clock)?;
        graph.push(row)?;
    }
    Ok(graph)
}

/// Marks the streams whose clocks go in a circle among names without an equation.
///
/// # Errors
///
/// Want of memory.
pub(crate) fn clock_marks(
    alloc: Global,
    clocks: &Clocks<'_>,
    sides: &[Side<'_>],
) -> Result<Vec<bool>, AllocError>
    ensures { IfOk result (λ v. AreOnCircles (free_rows clocks.now
        (with_sides [] (equations_view sides.now))) v.items) }
{
    let lefts = lefts_of(alloc, sides)?;
    let graph = free_rows(alloc, clocks, &lefts)?;
    on_circles(alloc, &graph)
}

/// Notes the streams that are marked, each at its name.
#[tactic(auto, using(lus_scopes::proofs::Leasts::noted_append))]
pub(crate) fn note_marked(least: &mut Least, params: &[&Param], marks: &[bool])
    ensures { least_view least.new ≡ noted_all (least_view least.old)
        (marked_faults (params_view params.now) marks.now) }
{
    let mut place = 0;
    for param in params {
        if place >= marks.len() {
            break;
        }
        least.note_if(marks[place], What::Cycle, param.name.at);
        place += 1;
    }
}
