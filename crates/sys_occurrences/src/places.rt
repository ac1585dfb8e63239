//! The expressions of a declaration, with the clocks of their places.

ghost use Rattle.std.specs.Prelude.{◌≡◌, ◌++◌, ◌∷◌, [], IfOk, OnOk, map, flat_map};
ghost use Rattle.lus_tree.specs.View.{contract_item_view, definition_view, expr_view, item_view, named_view};
ghost use Rattle.lus_meaning.specs.Occurrences.{constant_texts, contract_statement_texts, on_base, statement_texts};
ghost use Rattle.lus_meaning.specs.Scene.{base};
ghost use Rattle.lus_streams.specs.Names.{names_view};
ghost use Rattle.sys_occurrences.specs.Occurring.{placed, places};
ghost use Rattle.sys_occurrences.specs.Views.{placed_view};

use lus_streams::clock::Clock;
use lus_streams::lookup::side_clock;
use lus_streams::names::Names;
use lus_tree::{ContractItem, Definition, Expr, Item, Named};
use std::alloc::{AllocError, Global};

/// An expression and the clock of its place.
#[derive(Clone, Copy)]
pub struct Placed<'a> {
    pub clock: Clock<'a>,
    pub expression: &'a Expr,
}

/// An expression on the base clock.
fn on_base<'a>(expression: &'a Expr) -> Placed<'a>
    ensures { placed_view result ≡ (base, expr_view expression.now) }
{
    Placed {
        clock: Clock::Base,
        expression,
    }
}

/// The places, and behind them those with these labels.
fn push_labelled<'a>(places: &mut Vec<Placed<'a>>, labelled: &'a [Named]) -> Result<(), AllocError>
    ensures { OnOk result (map placed_view places.new.items ≡ map placed_view places.old.items
        ++ map placed (on_base (map named_view labelled.now))) }
{
    for named in labelled {
        places.push(on_base(&named.value))?;
    }
    Ok(())
}

/// The places, and behind them these arguments.
fn push_arguments<'a>(places: &mut Vec<Placed<'a>>, arguments: &'a [Expr]) -> Result<(), AllocError>
    ensures { OnOk result (map placed_view places.new.items ≡ map placed_view places.old.items
        ++ map (λ a. (base, a)) (map expr_view arguments.now)) }
{
    for argument in arguments {
        places.push(on_base(argument))?;
    }
    Ok(())
}

/// The places, and behind them those of an item of a contract.
#[tactic(auto, using(crate::proofs::Occurring::arguments_placed))]
fn push_contract_item<'a>(
    places: &mut Vec<Placed<'a>>,
    item: &'a ContractItem,
) -> Result<(), AllocError>
    ensures { OnOk result (map placed_view places.new.items ≡ map placed_view places.old.items
        ++ map placed (contract_statement_texts (contract_item_view item.now))) }
{
    match item {
        ContractItem::Assume(named) | ContractItem::Guarantee(named) => {
            places.push(on_base(&named.value))?;
            Ok(())
        }
        ContractItem::Ghost(_, value) => {
            places.push(on_base(value))?;
            Ok(())
        }
        ContractItem::Constant(constant) => {
            places.push(on_base(&constant.value))?;
            Ok(())
        }
        ContractItem::Mode(_, required, ensured) => {
            push_labelled(places, required)?;
            push_labelled(places, ensured)
        }
        ContractItem::Import(_, _, arguments, _) => push_arguments(places, arguments),
    }
}

/// The places, and behind them those of a contract.
fn push_contract<'a>(
    places: &mut Vec<Placed<'a>>,
    items: &'a [ContractItem],
) -> Result<(), AllocError>
    ensures { OnOk result (map placed_view places.new.items ≡ map placed_view places.old.items
        ++ map placed (flat_map contract_statement_texts (map contract_item_view items.now))) }
{
    for item in items {
        push_contract_item(places, item)?;
    }
    Ok(())
}

/// The places, and behind them the values of these constants.
fn push_constants<'a>(
    places: &mut Vec<Placed<'a>>,
    constants: &'a [Definition],
) -> Result<(), AllocError>
    ensures { OnOk result (map placed_view places.new.items ≡ map placed_view places.old.items
        ++ map placed (constant_texts (map definition_view constants.now))) }
{
    for constant in constants {
        places.push(on_base(&constant.value))?;
    }
    Ok(())
}

/// The places, and behind them that of an item of a body.
fn push_item<'a>(
    places: &mut Vec<Placed<'a>>,
    names: Names<'a, '_>,
    item: &'a Item,
) -> Result<(), AllocError>
    ensures { OnOk result (map placed_view places.new.items ≡ map placed_view places.old.items
        ++ map placed (statement_texts (names_view names.entry) (item_view item.now))) }
{
    match item {
        Item::Equation(left, value) => {
            places.push(Placed {
                clock: side_clock(names, left),
                expression: value,
            })?;
        }
        Item::Assert(value) => {
            places.push(on_base(value))?;
        }
        Item::Property(named) => {
            places.push(on_base(&named.value))?;
        }
        Item::Main(_) => {}
    }
    Ok(())
}

/// The places, and behind them those of a body.
fn push_body<'a>(
    places: &mut Vec<Placed<'a>>,
    names: Names<'a, '_>,
    items: &'a [Item],
) -> Result<(), AllocError>
    ensures { OnOk result (map placed_view places.new.items ≡ map placed_view places.old.items
        ++ map placed (flat_map (statement_texts (names_view names.entry)) (map item_view items.now))) }
{
    for item in items {
        push_item(places, names, item)?;
    }
    Ok(())
}

/// Every expression of a declaration's items and constants, with the clock of its place.
///
/// # Errors
///
/// Want of memory.
#[tactic(auto, using(crate::proofs::Occurring::places_are))]
pub fn places_of<'a>(alloc: Global, names: Names<'a, '_>) -> Result<Vec<Placed<'a>>, AllocError>
    ensures { IfOk result (λ v. map placed_view v.items ≡ places (names_view names.entry)) }
{
    let mut places = Vec::new(alloc);
    push_contract(&mut places, names.owner.contract())?;
    push_constants(&mut places, names.owner.constants())?;
    push_body(&mut places, names, names.owner.body())?;
    Ok(places)
}
