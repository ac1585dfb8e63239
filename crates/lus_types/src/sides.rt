//! The expressions of a declaration, in text order.

ghost use Rattle.std.specs.Prelude.{◌≡◌, ◌∷◌, [], IfOk, map, flat_map};
ghost use Rattle.lus_tree.specs.View.{contract_item_view, definition_view, expr_view, item_view, named_view};
ghost use Rattle.lus_scopes.specs.Scopes.{owner_view};
ghost use Rattle.lus_types.specs.Called.{constant_sides, contract_sides, statement_sides, values_of};
ghost use Rattle.lus_types.specs.Sides.{SidesOn, all_sides, sides_view};

use lus_scopes::scope::Owner;
use lus_tree::{ContractItem, Definition, Expr, Item, Named};
use std::alloc::{AllocError, Global};

/// The expressions, and behind them those that are labelled.
fn push_labelled<'a>(sides: &mut Vec<&'a Expr>, labelled: &'a [Named]) -> Result<(), AllocError>
    ensures { IfOk result (λ _. SidesOn sides.old.items sides.new.items (values_of (map named_view labelled.now))) }
{
    for named in labelled {
        sides.push(&named.value)?;
    }
    Ok(())
}

/// The expressions, and behind them the values of these constants.
fn push_constants<'a>(
    sides: &mut Vec<&'a Expr>,
    constants: &'a [Definition],
) -> Result<(), AllocError>
    ensures { IfOk result
        (λ _. SidesOn sides.old.items sides.new.items (constant_sides (map definition_view constants.now))) }
{
    for constant in constants {
        sides.push(&constant.value)?;
    }
    Ok(())
}

/// The expressions, and behind them the arguments of an import.
fn push_arguments<'a>(sides: &mut Vec<&'a Expr>, arguments: &'a [Expr]) -> Result<(), AllocError>
    ensures { IfOk result (λ _. SidesOn sides.old.items sides.new.items (map expr_view arguments.now)) }
{
    for argument in arguments {
        sides.push(argument)?;
    }
    Ok(())
}

/// The expressions, and behind them one more.
pub(crate) fn push_side<'a>(sides: &mut Vec<&'a Expr>, side: &'a Expr) -> Result<(), AllocError>
    ensures { IfOk result (λ _. SidesOn sides.old.items sides.new.items (expr_view side.now ∷ [])) }
{
    sides.push(side)?;
    Ok(())
}

/// The expressions, and behind them those of an item of a contract.
fn push_contract_item<'a>(
    sides: &mut Vec<&'a Expr>,
    item: &'a ContractItem,
) -> Result<(), AllocError>
    ensures { IfOk result
        (λ _. SidesOn sides.old.items sides.new.items (contract_sides (contract_item_view item.now))) }
{
    match item {
        ContractItem::Assume(named) | ContractItem::Guarantee(named) => {
            push_side(sides, &named.value)
        }
        ContractItem::Ghost(_, value) => push_side(sides, value),
        ContractItem::Constant(constant) => push_side(sides, &constant.value),
        ContractItem::Mode(_, required, ensured) => {
            push_labelled(sides, required)?;
            push_labelled(sides, ensured)
        }
        ContractItem::Import(_, _, arguments, _) => push_arguments(sides, arguments),
    }
}

/// The expressions, and behind them those of the items of a contract.
fn push_contract<'a>(sides: &mut Vec<&'a Expr>, items: &'a [ContractItem]) -> Result<(), AllocError>
    ensures { IfOk result (λ _. SidesOn sides.old.items sides.new.items
        (flat_map contract_sides (map contract_item_view items.now))) }
{
    for item in items {
        push_contract_item(sides, item)?;
    }
    Ok(())
}

/// The expressions, and behind them that of an item of a body.
fn push_item<'a>(sides: &mut Vec<&'a Expr>, item: &'a Item) -> Result<(), AllocError>
    ensures { IfOk result (λ _. SidesOn sides.old.items sides.new.items (statement_sides (item_view item.now))) }
{
    match item {
        Item::Equation(_, value) | Item::Assert(value) => push_side(sides, value),
        Item::Property(named) => push_side(sides, &named.value),
        Item::Main(_) => Ok(()),
    }
}

/// The expressions, and behind them those of the items of a body.
fn push_body<'a>(sides: &mut Vec<&'a Expr>, items: &'a [Item]) -> Result<(), AllocError>
    ensures { IfOk result
        (λ _. SidesOn sides.old.items sides.new.items (flat_map statement_sides (map item_view items.now))) }
{
    for item in items {
        push_item(sides, item)?;
    }
    Ok(())
}

/// The expressions of a declaration.
pub(crate) fn sides_of(alloc: Global, owner: Owner<'_>) -> Result<Vec<&Expr>, AllocError>
    ensures { IfOk result (λ v. sides_view v.items ≡ all_sides (owner_view owner.entry)) }
{
    let mut sides = Vec::new(alloc);
    push_contract(&mut sides, owner.contract())?;
    push_constants(&mut sides, owner.constants())?;
    push_body(&mut sides, owner.body())?;
    Ok(sides)
}
