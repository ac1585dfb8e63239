//! The words that a declaration calls and imports, in text order.

ghost use Rattle.std.specs.Prelude.{◌≡◌, IfOk, map, flat_map};
ghost use Rattle.lus_tree.specs.View.{contract_item_view, expr_view};
ghost use Rattle.lus_meaning.specs.Occurrences.{gathered};
ghost use Rattle.lus_meaning.specs.NameFaults.{callee_in, import_words};
ghost use Rattle.lus_scopes.specs.Scopes.{owner_view};
ghost use Rattle.lus_types.specs.Called.{callee_of};
ghost use Rattle.lus_types.specs.Sides.{sides_view};
ghost use Rattle.lus_types.specs.Words.{Adds, words_view};

use crate::parts::all_parts;
use lus_scopes::scope::Owner;
use lus_tree::{ContractItem, Expr, Form, PlacedName};
use std::alloc::{AllocError, Global};

/// The words, and behind them the one that an expression itself calls.
#[tactic(auto, using(lus_tree::proofs::Views::form_views))]
fn push_callee<'a>(words: &mut Vec<&'a PlacedName>, e: &'a Expr) -> Result<(), AllocError>
    ensures { IfOk result (λ _. Adds words.old.items words.new.items (callee_of (expr_view e.now))) }
{
    match &e.form {
        Form::Call(_, callee, _) | Form::Condact(_, _, callee, _, _) => {
            words.push(callee)?;
            Ok(())
        }
        Form::Truth(_)
        | Form::Number(_)
        | Form::Name(_)
        | Form::Not(_)
        | Form::Minus(_)
        | Form::Pre(_, _)
        | Form::Arrow(_, _, _)
        | Form::Binary(_, _, _)
        | Form::If(_, _, _)
        | Form::When(_, _, _)
        | Form::Merge(_, _, _)
        | Form::ModeName(_, _) => Ok(()),
    }
}

/// The words that these expressions call, their parts left aside.
fn callees_of<'a>(alloc: Global, all: &[&'a Expr]) -> Result<Vec<&'a PlacedName>, AllocError>
    ensures { IfOk result (λ v. words_view v.items ≡ flat_map callee_of (sides_view all.now)) }
{
    let mut words = Vec::new(alloc);
    for e in all {
        push_callee(&mut words, e)?;
    }
    Ok(words)
}

/// The words that a declaration calls.
#[tactic(auto, using(crate::proofs::Occurring::gathered_called))]
pub(crate) fn calls_of(alloc: Global, owner: Owner<'_>) -> Result<Vec<&PlacedName>, AllocError>
    ensures { IfOk result (λ v. words_view v.items ≡ gathered callee_in (owner_view owner.entry)) }
{
    let all = all_parts(alloc, owner)?;
    callees_of(alloc, &all)
}

/// The words, and behind them the contract that an item imports.
fn push_import<'a>(
    words: &mut Vec<&'a PlacedName>,
    item: &'a ContractItem,
) -> Result<(), AllocError>
    ensures { IfOk result (λ _. Adds words.old.items words.new.items (import_words (contract_item_view item.now))) }
{
    match item {
        ContractItem::Import(_, contract, _, _) => {
            words.push(contract)?;
            Ok(())
        }
        ContractItem::Assume(_)
        | ContractItem::Guarantee(_)
        | ContractItem::Ghost(_, _)
        | ContractItem::Constant(_)
        | ContractItem::Mode(_, _, _) => Ok(()),
    }
}

/// The contracts that these items import.
pub(crate) fn imports_of(
    alloc: Global,
    items: &[ContractItem],
) -> Result<Vec<&PlacedName>, AllocError>
    ensures { IfOk result (λ v. words_view v.items ≡ flat_map import_words (map contract_item_view items.now)) }
{
    let mut words = Vec::new(alloc);
    for item in items {
        push_import(&mut words, item)?;
    }
    Ok(words)
}
