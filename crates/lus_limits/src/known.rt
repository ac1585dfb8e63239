//! The names of a declaration that an equation or its caller gives.

ghost use Rattle.std.specs.Prelude.{◌≡◌, ◌||◌, ◌++◌, ◌∷◌, [], IfOk, OnOk, map, flat_map};
ghost use Rattle.lus_tree.specs.Tree.{Name, text_of};
ghost use Rattle.lus_tree.specs.View.{contract_item_view, item_view, param_view, word_view};
ghost use Rattle.lus_meaning.specs.Depends.{left_names, named_in};
ghost use Rattle.lus_meaning.specs.Run.{body_equations, ghost_equations};
ghost use Rattle.lus_limits.specs.Known.{HasThese, lefts_of};
ghost use Rattle.lus_limits.specs.SizeSummaries.{all_given, inputs_given};
ghost use Rattle.lus_streams.specs.Owner.{owner_view};

use lus_streams::owner::Owner;
use lus_tree::{ContractItem, Item, Param, PlacedName};
use name_table::NameTable;
use std::alloc::{AllocError, Global};

/// Adds a name.
#[tactic(auto, using(crate::proofs::KnownNames::named_added))]
fn add(alloc: Global, names: &mut NameTable, name: &str) -> Result<(), AllocError>
    ensures { OnOk result (HasThese names.old names.new (name.now ∷ [])) }
{
    names.add(alloc, name)?;
    Ok(())
}

/// Adds the names of streams.
#[tactic(auto, using(crate::proofs::KnownNames::these_more, crate::proofs::KnownNames::none_more))]
fn add_streams(alloc: Global, names: &mut NameTable, streams: &[Param]) -> Result<(), AllocError>
    ensures { OnOk result (HasThese names.old names.new (map (λ v. v.name.text) (map param_view streams.now))) }
{
    for stream in streams {
        add(alloc, names, &stream.name.text)?;
    }
    Ok(())
}

/// Adds the left names of an equation.
fn add_words(alloc: Global, names: &mut NameTable, words: &[PlacedName]) -> Result<(), AllocError>
    ensures { OnOk result (HasThese names.old names.new (map text_of (map word_view words.now))) }
{
    for word in words {
        add(alloc, names, &word.text)?;
    }
    Ok(())
}

/// Adds the name of an item's ghost variable, where it is one.
fn add_ghost(alloc: Global, names: &mut NameTable, item: &ContractItem) -> Result<(), AllocError>
    ensures { OnOk result (HasThese names.old names.new
        (lefts_of (ghost_equations (contract_item_view item.now ∷ [])))) }
{
    if let ContractItem::Ghost(stream, _) = item {
        add(alloc, names, &stream.name.text)?;
    }
    Ok(())
}

/// Adds the names of the ghost variables of a contract.
fn add_ghosts(
    alloc: Global,
    names: &mut NameTable,
    items: &[ContractItem],
) -> Result<(), AllocError>
    ensures { OnOk result (HasThese names.old names.new
        (lefts_of (ghost_equations (map contract_item_view items.now)))) }
{
    for item in items {
        add_ghost(alloc, names, item)?;
    }
    Ok(())
}

/// Adds the left names of an item of a body, where it is an equation.
fn add_left(alloc: Global, names: &mut NameTable, item: &Item) -> Result<(), AllocError>
    ensures { OnOk result (HasThese names.old names.new (lefts_of (body_equations (item_view item.now ∷ [])))) }
{
    if let Item::Equation(words, _) = item {
        add_words(alloc, names, words)?;
    }
    Ok(())
}

/// Adds the left names of a body.
fn add_lefts(alloc: Global, names: &mut NameTable, items: &[Item]) -> Result<(), AllocError>
    ensures { OnOk result (HasThese names.old names.new (lefts_of (body_equations (map item_view items.now)))) }
{
    for item in items {
        add_left(alloc, names, item)?;
    }
    Ok(())
}

/// Adds the names that an equation gives.
#[tactic(auto, using(crate::proofs::KnownNames::defined_more))]
fn add_defined(alloc: Global, names: &mut NameTable, owner: Owner<'_>) -> Result<(), AllocError>
    ensures { OnOk result (HasThese names.old names.new (left_names (owner_view owner.entry))) }
{
    add_ghosts(alloc, names, owner.contract())?;
    add_lefts(alloc, names, owner.body())?;
    Ok(())
}

/// The names that an equation gives, or the caller, where it gives the inputs.
///
/// # Errors
///
/// Want of memory.
#[tactic(auto, using(crate::proofs::KnownNames::these_more))]
pub(crate) fn known_when_called(alloc: Global, owner: Owner<'_>) -> Result<NameTable, AllocError>
    ensures { IfOk result (λ t. HasThese [] t (inputs_given (owner_view owner.entry) ++ left_names
        (owner_view owner.entry))) }
{
    let mut names = NameTable::new(alloc);
    add_streams(alloc, &mut names, owner.inputs())?;
    add_defined(alloc, &mut names, owner)?;
    Ok(names)
}

/// The same, where the caller gives the outputs too.
///
/// # Errors
///
/// Want of memory.
#[tactic(auto, using(crate::proofs::KnownNames::these_more))]
pub(crate) fn known_when_imported(alloc: Global, owner: Owner<'_>) -> Result<NameTable, AllocError>
    ensures { IfOk result (λ t. HasThese [] t (all_given (owner_view owner.entry) ++ left_names
        (owner_view owner.entry))) }
{
    let mut names = NameTable::new(alloc);
    add_streams(alloc, &mut names, owner.inputs())?;
    add_streams(alloc, &mut names, owner.outputs())?;
    add_defined(alloc, &mut names, owner)?;
    Ok(names)
}
