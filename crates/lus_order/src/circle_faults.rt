//! Equations whose left names lead to themselves.

ghost use Rattle.std.specs.Prelude.{◌≡◌, ◌↔◌, ◌≤◌, [], IfOk, cond, length, map, true};
ghost use Rattle.lus_tree.specs.Tree.{text_of};
ghost use Rattle.lus_scopes.specs.Least.{least_view, noted_all};
ghost use Rattle.lus_order.specs.Backs.{AreFlagged, IsClosed, LeadsBack, any_marked, fault_at_first, flagged_faults, rows_of};
ghost use Rattle.number_graphs.specs.Graphs.{graph_view};
ghost use Rattle.lus_order.specs.Names.{words_view};
ghost use Rattle.lus_order.specs.Sides.{side_words, words_of};

use crate::found::{is_marked_name, reached_from};
use crate::rows::push_numbers;
use crate::sides::Side;
use lus_scopes::least::Least;
use lus_tree::{PlacedName, What};
use name_table::NameTable;
use number_graphs::graph::Graph;
use std::alloc::{AllocError, Global};

/// All to which the numbers of these names lead by one step.
fn rows_of(
    alloc: Global,
    graph: &Graph,
    names: &NameTable,
    words: &[&PlacedName],
) -> Result<Vec<usize>, AllocError>
    ensures { IfOk result (λ v. v.items
        ≡ rows_of (graph_view graph.now) names.now (map text_of (words_view words.now))) }
{
    let mut row = Vec::new(alloc);
    for word in words {
        if let Some(number) = names.number(&word.text) {
            push_numbers(&mut row, graph.row(number))?;
        }
    }
    Ok(row)
}

/// Whether one of these names is marked.
fn any_marked(marks: &[bool], names: &NameTable, words: &[&PlacedName]) -> bool
    ensures { result ≡ any_marked marks.now names.now (map text_of (words_view words.now)) }
{
    for word in words {
        if is_marked_name(marks, names, &word.text) {
            return true;
        }
    }
    false
}

/// Whether one of these names leads to one of them. The graph is as it was.
fn leads_back(
    alloc: Global,
    graph: &mut Graph,
    names: &NameTable,
    words: &[&PlacedName],
) -> Result<bool, AllocError>
    requires within { length names.now ≤ length (graph_view graph.old) }
    requires closed { IsClosed (graph_view graph.old) }
    ensures same { IfOk result (λ _. graph_view graph.new ≡ graph_view graph.old) }
    ensures back { IfOk result (λ b. (b ≡ true)
        ↔ LeadsBack (graph_view graph.old) names.now (map text_of (words_view words.now))) }
{
    let row = rows_of(alloc, graph, names, words)?;
    let marks = reached_from(alloc, graph, row)?;
    Ok(any_marked(&marks, names, words))
}

/// Whether the left names of each equation lead to themselves. The graph is as it was.
///
/// # Errors
///
/// Want of memory.
pub(crate) fn flags_of(
    alloc: Global,
    graph: &mut Graph,
    names: &NameTable,
    sides: &[Side<'_>],
) -> Result<Vec<bool>, AllocError>
    requires within { length names.now ≤ length (graph_view graph.old) }
    requires closed { IsClosed (graph_view graph.old) }
    ensures same { IfOk result (λ _. graph_view graph.new ≡ graph_view graph.old) }
    ensures flagged { IfOk result (λ v. AreFlagged (graph_view graph.old) names.now (words_of sides.now) v.items) }
{
    let mut flags = Vec::new(alloc);
    for side in sides {
        flags.push(leads_back(alloc, graph, names, &side.words)?)?;
    }
    Ok(flags)
}

/// Notes an equation at its first left name, where it is flagged.
fn note_first(least: &mut Least, words: &[&PlacedName], flagged: bool)
    ensures { least_view least.new ≡ noted_all (least_view least.old)
        (cond flagged (fault_at_first (words_view words.now)) []) }
{
    if let [word, ..] = words {
        least.note_if(flagged, What::Cycle, word.at);
    }
}

/// Notes the equations that are flagged, each at its first left name.
#[tactic(auto, using(lus_scopes::proofs::Leasts::noted_append))]
pub(crate) fn note_flagged(least: &mut Least, sides: &[Side<'_>], flags: &[bool])
    ensures { least_view least.new ≡ noted_all (least_view least.old) (flagged_faults (words_of sides.now) flags.now) }
{
    let mut place = 0;
    for side in sides {
        if place >= flags.len() {
            break;
        }
        note_first(least, &side.words, flags[place]);
        place += 1;
    }
}
