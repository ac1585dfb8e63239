//! The faults of left names.

ghost use Rattle.std.specs.Prelude.{◌≡◌, IfOk, flat_map};
ghost use Rattle.lus_tree.specs.View.{decl_view, node_view, program_view};
ghost use Rattle.lus_meaning.specs.ClockFaults.{components};
ghost use Rattle.lus_meaning.specs.EquationFaults.{left_faults};
ghost use Rattle.lus_scopes.specs.Least.{least_view, noted_all};
ghost use Rattle.lus_scopes.specs.Notes.{Notes};
ghost use Rattle.lus_order.specs.Names.{words_view};
ghost use Rattle.lus_order.specs.Lefts.{lefts_of, outside};

use crate::repeated::words_twice;
use crate::words::{body_lefts, definable};
use lus_scopes::least::Least;
use lus_tree::{Decl, Node, PlacedName, Program, What};
use name_table::NameTable;
use std::alloc::{AllocError, Global};

/// Notes those of the words that are not in the table.
#[tactic(auto, using(lus_scopes::proofs::Leasts::noted_append))]
fn note_outside(least: &mut Least, table: &NameTable, words: &[&PlacedName])
    ensures { least_view least.new ≡ noted_all (least_view least.old) (outside table.now (words_view words.now)) }
{
    for word in words {
        least.note_if(!table.has(&word.text), What::InputDefined, word.at);
    }
}

/// Notes the faults of the left names of a node.
fn note_node(alloc: Global, least: &mut Least, node: &Node) -> Result<(), AllocError>
    ensures { IfOk result (λ _. Notes (least_view least.old) (least_view least.new)
        (left_faults (node_view node.now))) }
{
    let lefts = body_lefts(alloc, node)?;
    let table = definable(alloc, node)?;
    words_twice(alloc, least, &lefts)?;
    note_outside(least, &table, &lefts);
    Ok(())
}

/// Notes the faults of the left names of a declaration.
fn note_declaration(alloc: Global, least: &mut Least, decl: &Decl) -> Result<(), AllocError>
    ensures { IfOk result (λ _. Notes (least_view least.old) (least_view least.new) (lefts_of (decl_view decl.now))) }
{
    match decl {
        Decl::Node(node) => note_node(alloc, least, node),
        Decl::Constant(_) | Decl::Contract(_) => Ok(()),
    }
}

/// Notes the faults of left names: those that stand twice, at the later place, and those that are
/// no outputs and no locals.
///
/// # Errors
///
/// Want of memory.
pub(crate) fn left_names(
    alloc: Global,
    program: &Program,
    least: &mut Least,
) -> Result<(), AllocError>
    ensures { IfOk result (λ _. Notes (least_view least.old) (least_view least.new)
        (flat_map left_faults (components (program_view program.now)))) }
{
    for decl in &program.decls {
        note_declaration(alloc, least, decl)?;
    }
    Ok(())
}
