//! The items of a contract, statement by statement.

ghost use Rattle.std.specs.Prelude.{◌≡◌, IfOk, OnOk, map};
ghost use Rattle.lus_tree.specs.View.{contract_item_view};
ghost use Rattle.sys_texts.specs.Views.{sight_view};
ghost use Rattle.sys_contracts.specs.Items.{contract_items, with_statement};
ghost use Rattle.sys_contracts.specs.Views.{all_items_view, items_view};

use crate::imports::push_import;
use crate::items::{Items, no_items};
use crate::modes::mode_item;
use lus_tree::ContractItem;
use std::alloc::{AllocError, Global};
use sys_texts::sight::Sight;
use sys_texts::texts::formula;

/// The items with that of a statement.
fn add_statement<'a>(
    alloc: Global,
    sight: &Sight<'_>,
    called: &[Items<'a>],
    items: &mut Items<'a>,
    statement: &'a ContractItem,
) -> Result<(), AllocError>
    ensures { OnOk result (items_view items.new ≡ with_statement (sight_view sight.now) (all_items_view called.now)
        (items_view items.old) (contract_item_view statement.now)) }
{
    match statement {
        ContractItem::Assume(named) => {
            let said = formula(alloc, sight, &items.modes, &named.value)?;
            items.assumes.push(said)?;
            Ok(())
        }
        ContractItem::Guarantee(named) => {
            let said = formula(alloc, sight, &items.modes, &named.value)?;
            items.guarantees.push(said)?;
            Ok(())
        }
        ContractItem::Ghost(_, _) | ContractItem::Constant(_) => Ok(()),
        ContractItem::Mode(name, requires_all, ensures_each) => {
            let mode = mode_item(alloc, sight, &items.modes, name, requires_all, ensures_each)?;
            items.modes.push(mode)?;
            Ok(())
        }
        ContractItem::Import(number, contract, _, _) => {
            push_import(alloc, items, called, *number, &contract.text)
        }
    }
}

/// The items of a contract, where `called` has those of the declaration's calls and imports, by their numbers from 1.
///
/// # Errors
///
/// Want of memory.
pub fn contract_items<'a>(
    alloc: Global,
    sight: &Sight<'_>,
    called: &[Items<'a>],
    statements: &'a [ContractItem],
) -> Result<Items<'a>, AllocError>
    ensures { IfOk result (λ i. items_view i ≡ contract_items (sight_view sight.now) (all_items_view called.now)
        (map contract_item_view statements.now)) }
{
    let mut items = no_items(alloc);
    for statement in statements {
        add_statement(alloc, sight, called, &mut items, statement)?;
    }
    Ok(items)
}
