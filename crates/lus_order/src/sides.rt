//! The equations of a declaration, ghost ones included.

ghost use Rattle.std.specs.Prelude.{◌≡◌, ◌∷◌, ◌++◌, [], IfOk, map};
ghost use Rattle.lus_tree.specs.View.{contract_item_view, item_view, param_view};
ghost use Rattle.lus_meaning.specs.EquationFaults.{body_sides, ghost_sides, sides};
ghost use Rattle.lus_meaning.specs.Run.{body_equations, equations, ghost_equations};
ghost use Rattle.lus_streams.specs.Owner.{owner_view};
ghost use Rattle.lus_order.specs.Sides.{equations_view, words_of};

use crate::words::push_words;
use lus_streams::owner::Owner;
use lus_tree::{ContractItem, Expr, Item, PlacedName};
use std::alloc::{AllocError, Global};

/// An equation.
#[derive(Drop)]
pub(crate) struct Side<'a> {
    pub(crate) words: Vec<&'a PlacedName>,
    pub(crate) right: &'a Expr,
}

/// The equations, and behind them that of a ghost variable, where the item is one.
fn push_ghost<'a>(
    alloc: Global,
    sides: &mut Vec<Side<'a>>,
    item: &'a ContractItem,
) -> Result<(), AllocError>
    ensures equations { IfOk result (λ _. equations_view sides.new.items
        ≡ equations_view sides.old.items ++ ghost_equations (contract_item_view item.now ∷ [])) }
    ensures words { IfOk result (λ _. words_of sides.new.items
        ≡ words_of sides.old.items ++ ghost_sides (contract_item_view item.now ∷ [])) }
{
    if let ContractItem::Ghost(param, right) = item {
        let mut words = Vec::new(alloc);
        words.push(&param.name)?;
        sides.push(Side { words, right })?;
    }
    Ok(())
}

/// The equations, and behind them the item, where it is one.
fn push_equation<'a>(
    alloc: Global,
    sides: &mut Vec<Side<'a>>,
    item: &'a Item,
) -> Result<(), AllocError>
    ensures equations { IfOk result (λ _. equations_view sides.new.items
        ≡ equations_view sides.old.items ++ body_equations (item_view item.now ∷ [])) }
    ensures words { IfOk result (λ _. words_of sides.new.items
        ≡ words_of sides.old.items ++ body_sides (item_view item.now ∷ [])) }
{
    if let Item::Equation(names, right) = item {
        let mut words = Vec::new(alloc);
        push_words(&mut words, names)?;
        sides.push(Side { words, right })?;
    }
    Ok(())
}

/// The equations, and behind them those of the ghost variables of a contract.
fn push_ghosts<'a>(
    alloc: Global,
    sides: &mut Vec<Side<'a>>,
    items: &'a [ContractItem],
) -> Result<(), AllocError>
    ensures equations { IfOk result (λ _. equations_view sides.new.items
        ≡ equations_view sides.old.items ++ ghost_equations (map contract_item_view items.now)) }
    ensures words { IfOk result (λ _. words_of sides.new.items
        ≡ words_of sides.old.items ++ ghost_sides (map contract_item_view items.now)) }
{
    for item in items {
        push_ghost(alloc, sides, item)?;
    }
    Ok(())
}

/// The equations, and behind them those of a body.
fn push_body<'a>(
    alloc: Global,
    sides: &mut Vec<Side<'a>>,
    items: &'a [Item],
) -> Result<(), AllocError>
    ensures equations { IfOk result (λ _. equations_view sides.new.items
        ≡ equations_view sides.old.items ++ body_equations (map item_view items.now)) }
    ensures words { IfOk result (λ _. words_of sides.new.items
        ≡ words_of sides.old.items ++ body_sides (map item_view items.now)) }
{
    for item in items {
        push_equation(alloc, sides, item)?;
    }
    Ok(())
}

/// The equations of a declaration in text order, those of ghost variables first.
///
/// # Errors
///
/// Want of memory.
pub(crate) fn sides_of(alloc: Global, owner: Owner<'_>) -> Result<Vec<Side<'_>>, AllocError>
    ensures equations { IfOk result (λ v. equations_view v.items ≡ equations (owner_view owner.entry)) }
    ensures words { IfOk result (λ v. words_of v.items ≡ sides (owner_view owner.entry)) }
{
    let mut sides = Vec::new(alloc);
    push_ghosts(alloc, &mut sides, owner.contract())?;
    push_body(alloc, &mut sides, owner.body())?;
    Ok(sides)
}
