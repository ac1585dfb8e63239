//! The words that a declaration declares, and those of its modes.

ghost use Rattle.std.specs.Prelude.{◌≡◌, ◌∷◌, [], IfOk, map};
ghost use Rattle.lus_tree.specs.View.{contract_item_view, definition_view, param_view};
ghost use Rattle.lus_meaning.specs.Program.{contract_statement_constants};
ghost use Rattle.lus_meaning.specs.Scene.{ghosts, variables};
ghost use Rattle.lus_meaning.specs.NameFaults.{mode_words, own_words};
ghost use Rattle.lus_scopes.specs.Scopes.{owner_view};
ghost use Rattle.lus_types.specs.Words.{Adds, words_view};

use lus_scopes::scope::Owner;
use lus_tree::{ContractItem, Definition, Param, PlacedName};
use std::alloc::{AllocError, Global};

/// The words, and behind them the names of streams.
fn push_streams<'a>(words: &mut Vec<&'a PlacedName>, params: &'a [Param]) -> Result<(), AllocError>
    ensures { IfOk result (λ _. Adds words.old.items words.new.items
        (map (λ v. v.name) (map param_view params.now))) }
{
    for param in params {
        words.push(&param.name)?;
    }
    Ok(())
}

/// The words, and behind them the names of constants.
fn push_constants<'a>(
    words: &mut Vec<&'a PlacedName>,
    definitions: &'a [Definition],
) -> Result<(), AllocError>
    ensures { IfOk result (λ _. Adds words.old.items words.new.items
        (map (λ c. c.name) (map definition_view definitions.now))) }
{
    for definition in definitions {
        words.push(&definition.name)?;
    }
    Ok(())
}

/// The words, and behind them the name of a ghost variable.
fn push_ghost<'a>(words: &mut Vec<&'a PlacedName>, item: &'a ContractItem) -> Result<(), AllocError>
    ensures { IfOk result (λ _. Adds words.old.items words.new.items
        (map (λ v. v.name) (ghosts (contract_item_view item.now ∷ [])))) }
{
    if let ContractItem::Ghost(param, _) = item {
        words.push(&param.name)?;
    }
    Ok(())
}

/// The words, and behind them the names of ghost variables.
fn push_ghosts<'a>(
    words: &mut Vec<&'a PlacedName>,
    items: &'a [ContractItem],
) -> Result<(), AllocError>
    ensures { IfOk result (λ _. Adds words.old.items words.new.items
        (map (λ v. v.name) (ghosts (map contract_item_view items.now)))) }
{
    for item in items {
        push_ghost(words, item)?;
    }
    Ok(())
}

/// The words, and behind them the name of a contract's constant.
fn push_item_constant<'a>(
    words: &mut Vec<&'a PlacedName>,
    item: &'a ContractItem,
) -> Result<(), AllocError>
    ensures { IfOk result (λ _. Adds words.old.items words.new.items
        (map (λ c. c.name) (contract_statement_constants (contract_item_view item.now ∷ [])))) }
{
    if let ContractItem::Constant(definition) = item {
        words.push(&definition.name)?;
    }
    Ok(())
}

/// The words, and behind them the names of a contract's constants.
fn push_item_constants<'a>(
    words: &mut Vec<&'a PlacedName>,
    items: &'a [ContractItem],
) -> Result<(), AllocError>
    ensures { IfOk result (λ _. Adds words.old.items words.new.items
        (map (λ c. c.name) (contract_statement_constants (map contract_item_view items.now)))) }
{
    for item in items {
        push_item_constant(words, item)?;
    }
    Ok(())
}

/// The words, and behind them the name of a mode.
fn push_mode<'a>(words: &mut Vec<&'a PlacedName>, item: &'a ContractItem) -> Result<(), AllocError>
    ensures { IfOk result (λ _. Adds words.old.items words.new.items
        (mode_words (contract_item_view item.now ∷ []))) }
{
    if let ContractItem::Mode(mode, _, _) = item {
        words.push(mode)?;
    }
    Ok(())
}

/// The names of a contract's modes.
pub(crate) fn mode_words(
    alloc: Global,
    items: &[ContractItem],
) -> Result<Vec<&PlacedName>, AllocError>
    ensures { IfOk result (λ v. words_view v.items ≡ mode_words (map contract_item_view items.now)) }
{
    let mut words = Vec::new(alloc);
    for item in items {
        push_mode(&mut words, item)?;
    }
    Ok(words)
}

/// The words, and behind them those of all streams.
fn push_variables<'a>(words: &mut Vec<&'a PlacedName>, owner: Owner<'a>) -> Result<(), AllocError>
    ensures { IfOk result (λ _. Adds words.old.items words.new.items
        (map (λ v. v.name) (variables (owner_view owner.entry)))) }
{
    push_streams(words, owner.inputs())?;
    push_streams(words, owner.outputs())?;
    push_streams(words, owner.locals())?;
    push_ghosts(words, owner.contract())
}

/// The names that a declaration declares.
pub(crate) fn own_words(alloc: Global, owner: Owner<'_>) -> Result<Vec<&PlacedName>, AllocError>
    ensures { IfOk result (λ v. words_view v.items ≡ own_words (owner_view owner.entry)) }
{
    let mut words = Vec::new(alloc);
    push_variables(&mut words, owner)?;
    push_item_constants(&mut words, owner.contract())?;
    push_constants(&mut words, owner.constants())?;
    Ok(words)
}
