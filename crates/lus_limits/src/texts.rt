//! The expressions of a declaration's items and constants.

ghost use Rattle.std.specs.Prelude.{◌≡◌, ◌++◌, ◌∷◌, [], IfOk, map, flat_map};
ghost use Rattle.lus_tree.specs.View.{contract_item_view, definition_view, expr_view, item_view, named_view};
ghost use Rattle.lus_streams.specs.Owner.{owner_view};
ghost use Rattle.lus_limits.specs.Parts.{Adds, constant_sides, contract_sides, sides, sides_view, statement_sides, values_of};

use lus_streams::owner::Owner;
use lus_tree::{ContractItem, Definition, Expr, Item, Named};
use std::alloc::{AllocError, Global};

/// The expressions, and behind them those with these labels.
fn push_labelled<'a>(sides: &mut Vec<&'a Expr>, labelled: &'a [Named]) -> Result<(), AllocError>
    ensures { IfOk result (λ _. Adds sides.old.items sides.new.items (values_of (map named_view labelled.now))) }
{
    for named in labelled {
        sides.push(&named.value)?;
    }
    Ok(())
}

/// The expressions, and behind them the values of these constants.
fn push_constants<'a>(
    sides: &mut Vec<&'a Expr>,
    constants: &'a [Definition],
) -> Result<(), AllocError>
    ensures { IfOk result
        (λ _. Adds sides.old.items sides.new.items (constant_sides (map definition_view constants.now))) }
{
    for constant in constants {
        sides.push(&constant.value)?;
    }
    Ok(())
}

/// The expressions, and behind them these arguments.
fn push_arguments<'a>(sides: &mut Vec<&'a Expr>, arguments: &'a [Expr]) -> Result<(), AllocError>
    ensures { IfOk result (λ _. Adds sides.old.items sides.new.items (map expr_view arguments.now)) }
{
    for argument in arguments {
        sides.push(argument)?;
    }
    Ok(())
}

/// The expressions, and behind them that one.
fn push_side<'a>(sides: &mut Vec<&'a Expr>, side: &'a Expr) -> Result<(), AllocError>
    ensures { IfOk result (λ _. Adds sides.old.items sides.new.items (expr_view side.now ∷ [])) }
{
    sides.push(side)?;
    Ok(())
}

/// The expressions, and behind them those with these labels, and then those.
fn push_both_labelled<'a>(
    sides: &mut Vec<&'a Expr>,
    first: &'a [Named],
    second: &'a [Named],
) -> Result<(), AllocError>
    ensures { IfOk result (λ _. Adds sides.old.items sides.new.items
        (values_of (map named_view first.now) ++ values_of (map named_view second.now))) }
{
    push_labelled(sides, first)?;
    push_labelled(sides, second)
}

/// The expressions, and behind them those of an item of a contract.
fn push_contract_item<'a>(
    sides: &mut Vec<&'a Expr>,
    item: &'a ContractItem,
) -> Result<(), AllocError>
    ensures { IfOk result
        (λ _. Adds sides.old.items sides.new.items (contract_sides (contract_item_view item.now))) }
{
    match item {
        ContractItem::Assume(named) | ContractItem::Guarantee(named) => {
            push_side(sides, &named.value)
        }
        ContractItem::Ghost(_, value) => push_side(sides, value),
        ContractItem::Constant(constant) => push_side(sides, &constant.value),
        ContractItem::Mode(_, required, ensured) => push_both_labelled(sides, required, ensured),
        ContractItem::Import(_, _, arguments, _) => push_arguments(sides, arguments),
    }
}

/// The expressions, and behind them those of the items of a contract.
fn push_contract<'a>(sides: &mut Vec<&'a Expr>, items: &'a [ContractItem]) -> Result<(), AllocError>
    ensures { IfOk result
        (λ _. Adds sides.old.items sides.new.items (flat_map contract_sides (map contract_item_view items.now))) }
{
    for item in items {
        push_contract_item(sides, item)?;
    }
    Ok(())
}

/// The expressions, and behind them that of an item of a body.
fn push_item<'a>(sides: &mut Vec<&'a Expr>, item: &'a Item) -> Result<(), AllocError>
    ensures { IfOk result (λ _. Adds sides.old.items sides.new.items (statement_sides (item_view item.now))) }
{
    match item {
        Item::Equation(_, value) | Item::Assert(value) => push_side(sides, value),
        Item::Property(named) => push_side(sides, &named.value),
        Item::Main(_) => Ok(()),
    }
}

/// The expressions, and behind them those of the items of a body.
fn push_body<'a>(sides: &mut Vec<&'a Expr>, items: &'a [Item]) -> Result<(), AllocError>
    ensures { IfOk result
        (λ _. Adds sides.old.items sides.new.items (flat_map statement_sides (map item_view items.now))) }
{
    for item in items {
        push_item(sides, item)?;
    }
    Ok(())
}

/// Every expression of a declaration's items and constants.
///
/// # Errors
///
/// Want of memory.
pub(crate) fn sides_of(alloc: Global, part: Owner<'_>) -> Result<Vec<&Expr>, AllocError>
    ensures { IfOk result (λ v. sides_view v.items ≡ sides (owner_view part.entry)) }
{
    let mut sides = Vec::new(alloc);
    push_contract(&mut sides, part.contract())?;
    push_constants(&mut sides, part.constants())?;
    push_body(&mut sides, part.body())?;
    Ok(sides)
}
