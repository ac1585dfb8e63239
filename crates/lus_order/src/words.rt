//! The left names of a body, and the names that it may define.

ghost use Rattle.std.specs.Prelude.{◌≡◌, ◌∷◌, [], IfOk, flat_map, map};
ghost use Rattle.lus_tree.specs.Tree.{Spelled};
ghost use Rattle.lus_tree.specs.View.{item_view, node_view, param_view, word_view};
ghost use Rattle.lus_meaning.specs.EquationFaults.{body_lefts, body_sides, definable};
ghost use Rattle.lus_order.specs.Names.{Adds, words_view};
ghost use Rattle.lus_order.specs.Names.{AddsNames, HasNames};

use lus_tree::{Item, Node, Param, PlacedName};
use name_table::NameTable;
use std::alloc::{AllocError, Global};

/// The words, and behind them these.
pub(crate) fn push_words<'a>(
    words: &mut Vec<&'a PlacedName>,
    names: &'a [PlacedName],
) -> Result<(), AllocError>
    ensures { IfOk result (λ _. Adds words.old.items words.new.items (map word_view names.now)) }
{
    for name in names {
        words.push(name)?;
    }
    Ok(())
}

/// The words, and behind them the left names of an item.
fn push_left<'a>(words: &mut Vec<&'a PlacedName>, item: &'a Item) -> Result<(), AllocError>
    ensures { IfOk result (λ _. Adds words.old.items words.new.items
        (flat_map (λ xs. xs) (body_sides (item_view item.now ∷ [])))) }
{
    match item {
        Item::Equation(names, _) => push_words(words, names),
        Item::Assert(_) | Item::Property(_) | Item::Main(_) => Ok(()),
    }
}

/// The left names of a body, in text order.
pub(crate) fn body_lefts(alloc: Global, node: &Node) -> Result<Vec<&PlacedName>, AllocError>
    ensures { IfOk result (λ v. words_view v.items ≡ body_lefts (node_view node.now)) }
{
    let mut words = Vec::new(alloc);
    for item in &node.items {
        push_left(&mut words, item)?;
    }
    Ok(words)
}

/// The table, and in it the names of these streams.
fn add_streams(alloc: Global, table: &mut NameTable, params: &[Param]) -> Result<(), AllocError>
    ensures { IfOk result (λ _. AddsNames table.old table.new (map (λ v. v.name.text) (map param_view params.now))) }
{
    for param in params {
        table.add(alloc, &param.name.text)?;
    }
    Ok(())
}

/// The names that a body may define.
pub(crate) fn definable(alloc: Global, node: &Node) -> Result<NameTable, AllocError>
    ensures { IfOk result (λ t. HasNames t (definable (node_view node.now))) }
{
    let mut table = NameTable::new(alloc);
    add_streams(alloc, &mut table, &node.outputs)?;
    add_streams(alloc, &mut table, &node.locals)?;
    Ok(table)
}
