//! The names of a declaration that an equation defines.

ghost use Rattle.std.specs.Prelude.{◌≡◌, ◌||◌, ◌∷◌, [], OnOk, map};
ghost use Rattle.std.specs.Str.{bytes_eq};
ghost use Rattle.lus_tree.specs.Tree.{Name, text_of};
ghost use Rattle.lus_tree.specs.View.{contract_item_view, item_view, word_view};
ghost use Rattle.lus_meaning.specs.Depends.{named_in};
ghost use Rattle.lus_meaning.specs.Run.{body_equations, ghost_equations};
ghost use Rattle.lus_meaning.specs.Trace.{is_defined};
ghost use Rattle.lus_streams.specs.Owner.{owner_view};
ghost use Rattle.path_traces.specs.Plans.{is_left};

use lus_streams::owner::Owner;
use lus_tree::{ContractItem, Item, PlacedName};
use name_table::NameTable;
use std::alloc::{AllocError, Global};

/// Adds a name.
#[tactic(auto, using(crate::proofs::Lefts::added))]
fn add_name(alloc: Global, names: &mut NameTable, name: &str) -> Result<(), AllocError>
    ensures { OnOk result ((x : Name) → named_in x names.new ≡ (named_in x names.old || bytes_eq x name.now)) }
{
    names.add(alloc, name)?;
    Ok(())
}

/// Adds the left names of an equation.
fn add_words(alloc: Global, names: &mut NameTable, words: &[PlacedName]) -> Result<(), AllocError>
    ensures { OnOk result ((x : Name) → named_in x names.new
        ≡ (named_in x names.old || named_in x (map text_of (map word_view words.now)))) }
{
    for word in words {
        add_name(alloc, names, &word.text)?;
    }
    Ok(())
}

/// Adds the name of an item's ghost variable, where it is one.
fn add_ghost(alloc: Global, names: &mut NameTable, item: &ContractItem) -> Result<(), AllocError>
    ensures { OnOk result ((x : Name) → named_in x names.new
        ≡ (named_in x names.old || is_left (ghost_equations (contract_item_view item.now ∷ [])) x)) }
{
    if let ContractItem::Ghost(param, _) = item {
        add_name(alloc, names, &param.name.text)?;
    }
    Ok(())
}

/// Adds the names of the ghost variables of a contract.
#[tactic(auto, using(crate::proofs::Lefts::ghost_next))]
fn add_ghosts(
    alloc: Global,
    names: &mut NameTable,
    items: &[ContractItem],
) -> Result<(), AllocError>
    ensures { OnOk result ((x : Name) → named_in x names.new
        ≡ (named_in x names.old || is_left (ghost_equations (map contract_item_view items.now)) x)) }
{
    for item in items {
        add_ghost(alloc, names, item)?;
    }
    Ok(())
}

/// Adds the left names of an item of a body, where it is an equation.
fn add_left(alloc: Global, names: &mut NameTable, item: &Item) -> Result<(), AllocError>
    ensures { OnOk result ((x : Name) → named_in x names.new
        ≡ (named_in x names.old || is_left (body_equations (item_view item.now ∷ [])) x)) }
{
    if let Item::Equation(words, _) = item {
        add_words(alloc, names, words)?;
    }
    Ok(())
}

/// Adds the left names of a body.
#[tactic(auto, using(crate::proofs::Lefts::body_next))]
fn add_lefts(alloc: Global, names: &mut NameTable, items: &[Item]) -> Result<(), AllocError>
    ensures { OnOk result ((x : Name) → named_in x names.new
        ≡ (named_in x names.old || is_left (body_equations (map item_view items.now)) x)) }
{
    for item in items {
        add_left(alloc, names, item)?;
    }
    Ok(())
}

/// Adds the names of a declaration that an equation defines.
pub(crate) fn add_defined(
    alloc: Global,
    names: &mut NameTable,
    owner: Owner<'_>,
) -> Result<(), AllocError>
    ensures { OnOk result ((x : Name) → named_in x names.new
        ≡ (named_in x names.old || is_defined (owner_view owner.entry) x)) }
{
    add_ghosts(alloc, names, owner.contract())?;
    add_lefts(alloc, names, owner.body())
}
