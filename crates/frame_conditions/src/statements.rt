//! The conditions of a contract, statement by statement.

ghost use Rattle.std.specs.Prelude.{◌≡◌, ◌++◌, IfOk, OnOk, map};
ghost use Rattle.lus_tree.specs.View.{contract_item_view, named_view, word_view};
ghost use Rattle.slot_values.specs.Resolution.{resolved_view};
ghost use Rattle.sys_texts.specs.Views.{sight_view};
ghost use Rattle.frame_sources.specs.Resolved.{resolved_by};
ghost use Rattle.frame_sources.specs.Views.{all_asked_view};
ghost use Rattle.frame_conditions.specs.Conditioned.{contract_conditions, ensured, under, with_mode, with_statement};
ghost use Rattle.frame_conditions.specs.Views.{all_conditions_view, conditions_view, resolutions_view};

use crate::conditions::{Conditions, no_conditions};
use crate::imports::push_import;
use frame_sources::contracts::own_mode;
use frame_sources::copies::copied;
use frame_sources::frame::resolved;
use frame_sources::modes::Asked;
use lus_tree::{ContractItem, Named, Operator, PlacedName, Pos};
use slot_values::Resolved;
use std::alloc::{AllocError, Global};
use sys_texts::sight::Sight;

/// That something is true where this is, which stands at no place.
fn under(alloc: Global, asked: &Resolved, said: Resolved) -> Result<Resolved, AllocError>
    ensures { IfOk result (λ r. resolved_view r ≡ under (resolved_view asked.now) (resolved_view said)) }
{
    let nowhere = Pos { line: 0, column: 0 };
    let asked = copied(alloc, asked)?;
    let asked = Box::new(alloc, asked)?;
    let said = Box::new(alloc, said)?;
    Ok(Resolved::Binary(nowhere, Operator::Implies, asked, said))
}

/// What an expression says where this is true.
fn said_under(
    alloc: Global,
    sight: &Sight<'_>,
    modes: &[Asked<'_>],
    asked: &Resolved,
    named: &Named,
) -> Result<Resolved, AllocError>
    ensures { IfOk result (λ r. resolved_view r ≡ under (resolved_view asked.now)
        (resolved_by (sight_view sight.now) (all_asked_view modes.now) (named_view named.now).value)) }
{
    let said = resolved(alloc, sight, modes, &named.value)?;
    under(alloc, asked, said)
}

/// The expressions, and behind them what a mode ensures that asks this.
fn push_ensured(
    alloc: Global,
    resolutions: &mut Vec<Resolved>,
    sight: &Sight<'_>,
    modes: &[Asked<'_>],
    asked: &Resolved,
    labelled: &[Named],
) -> Result<(), AllocError>
    ensures { OnOk result (resolutions_view resolutions.new.items ≡ resolutions_view resolutions.old.items
        ++ ensured (sight_view sight.now) (all_asked_view modes.now) (resolved_view asked.now)
        (map named_view labelled.now)) }
{
    for named in labelled {
        let said = said_under(alloc, sight, modes, asked, named)?;
        resolutions.push(said)?;
    }
    Ok(())
}

/// The conditions with a mode of the contract itself.
fn push_mode<'a>(
    alloc: Global,
    sight: &Sight<'_>,
    conditions: &mut Conditions<'a>,
    name: &'a PlacedName,
    requires_all: &[Named],
    ensures_each: &[Named],
) -> Result<(), AllocError>
    ensures { OnOk result (conditions_view conditions.new ≡ with_mode (sight_view sight.now)
        (conditions_view conditions.old) (word_view name.now).text (map named_view requires_all.now)
        (map named_view ensures_each.now)) }
{
    let mode = own_mode(alloc, sight, &conditions.modes, name, requires_all)?;
    push_ensured(
        alloc,
        &mut conditions.ensured,
        sight,
        &conditions.modes,
        &mode.asked,
        ensures_each,
    )?;
    conditions.modes.push(mode)?;
    Ok(())
}

/// The conditions with that of a statement.
fn add_statement<'a>(
    alloc: Global,
    sight: &Sight<'_>,
    called: &[Conditions<'a>],
    conditions: &mut Conditions<'a>,
    statement: &'a ContractItem,
) -> Result<(), AllocError>
    ensures { OnOk result (conditions_view conditions.new ≡ with_statement (sight_view sight.now)
        (all_conditions_view called.now) (conditions_view conditions.old) (contract_item_view statement.now)) }
{
    match statement {
        ContractItem::Assume(named) => {
            let said = resolved(alloc, sight, &conditions.modes, &named.value)?;
            conditions.assumes.push(said)?;
            Ok(())
        }
        ContractItem::Guarantee(named) => {
            let said = resolved(alloc, sight, &conditions.modes, &named.value)?;
            conditions.guarantees.push(said)?;
            Ok(())
        }
        ContractItem::Ghost(_, _) | ContractItem::Constant(_) => Ok(()),
        ContractItem::Mode(name, requires_all, ensures_each) => {
            push_mode(alloc, sight, conditions, name, requires_all, ensures_each)
        }
        ContractItem::Import(number, contract, _, _) => {
            push_import(alloc, conditions, called, *number, &contract.text)
        }
    }
}

/// The conditions of a contract, where `called` has those of the declaration's calls and imports, by their numbers
/// from 1.
///
/// # Errors
///
/// Want of memory.
pub fn contract_conditions<'a>(
    alloc: Global,
    sight: &Sight<'_>,
    called: &[Conditions<'a>],
    statements: &'a [ContractItem],
) -> Result<Conditions<'a>, AllocError>
    ensures { IfOk result (λ r. conditions_view r ≡ contract_conditions (sight_view sight.now)
        (all_conditions_view called.now) (map contract_item_view statements.now)) }
{
    let mut conditions = no_conditions(alloc);
    for statement in statements {
        add_statement(alloc, sight, called, &mut conditions, statement)?;
    }
    Ok(conditions)
}
