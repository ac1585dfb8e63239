//! What the modes of a contract ask, statement by statement.

ghost use Rattle.std.specs.Prelude.{◌≡◌, ◌++◌, IfOk, OnOk, map, option_map, slice_get};
ghost use Rattle.lus_tree.specs.View.{contract_item_view, named_view, word_view};
ghost use Rattle.slot_values.specs.Resolution.{resolved_view};
ghost use Rattle.sys_contracts.specs.Items.{way_through};
ghost use Rattle.sys_texts.specs.Sights.{counted_from_one};
ghost use Rattle.sys_texts.specs.Views.{sight_view, way_view};
ghost use Rattle.frame_sources.specs.Modes.{all_by, both, contract_modes, imported_at, imported_mode, mode_by, with_statement};
ghost use Rattle.frame_sources.specs.Views.{all_asked_view, asked_view, each_asked_view};

use crate::copies::copied;
use crate::frame::resolved;
use crate::modes::Asked;
use lus_meaning::Value;
use lus_tree::{ContractItem, Named, Operator, PlacedName, Pos};
use slot_values::Resolved;
use std::alloc::{AllocError, Global};
use sys_texts::sight::{Sight, Way};

/// That both are true, which stands at no place.
fn both(alloc: Global, a: Resolved, b: Resolved) -> Result<Resolved, AllocError>
    ensures { IfOk result (λ r. resolved_view r ≡ both (resolved_view a) (resolved_view b)) }
{
    let nowhere = Pos { line: 0, column: 0 };
    let a = Box::new(alloc, a)?;
    let b = Box::new(alloc, b)?;
    Ok(Resolved::Binary(nowhere, Operator::And, a, b))
}

/// That all of these are true.
fn all_of(
    alloc: Global,
    sight: &Sight<'_>,
    modes: &[Asked<'_>],
    labelled: &[Named],
) -> Result<Resolved, AllocError>
    ensures { IfOk result (λ r. resolved_view r ≡ all_by (sight_view sight.now) (all_asked_view modes.now)
        (map named_view labelled.now)) }
{
    match labelled {
        [] => Ok(Resolved::Known(Some(Value::Truth(true)))),
        [only] => resolved(alloc, sight, modes, &only.value),
        [first, rest @ ..] => {
            let first = resolved(alloc, sight, modes, &first.value)?;
            let rest = all_of(alloc, sight, modes, rest)?;
            both(alloc, first, rest)
        }
    }
}

/// A mode of the contract itself.
///
/// # Errors
///
/// Want of memory.
pub fn own_mode<'a>(
    alloc: Global,
    sight: &Sight<'_>,
    modes: &[Asked<'_>],
    name: &'a PlacedName,
    requires_all: &[Named],
) -> Result<Asked<'a>, AllocError>
    ensures { IfOk result (λ m. asked_view m ≡ mode_by (sight_view sight.now) (all_asked_view modes.now)
        (word_view name.now).text (map named_view requires_all.now)) }
{
    Ok(Asked {
        way: Way::Own,
        name: &name.text,
        asked: all_of(alloc, sight, modes, requires_all)?,
    })
}

/// A way with an import before it.
fn way_through<'a>(contract: &'a str, way: Way<'_>) -> Way<'a>
    ensures { way_view result ≡ way_through contract.now (way_view way.entry) }
{
    match way {
        Way::Own => Way::Through(contract),
        Way::Through(_) | Way::Deeper => Way::Deeper,
    }
}

/// A mode of an import.
fn imported_mode<'a>(
    alloc: Global,
    contract: &'a str,
    mode: &Asked<'a>,
) -> Result<Asked<'a>, AllocError>
    ensures { IfOk result (λ m. asked_view m ≡ imported_mode contract.now (asked_view mode.now)) }
{
    Ok(Asked {
        way: way_through(contract, mode.way),
        name: mode.name,
        asked: copied(alloc, &mode.asked)?,
    })
}

/// The modes, and behind them those of an import.
///
/// # Errors
///
/// Want of memory.
pub fn push_modes<'a>(
    alloc: Global,
    modes: &mut Vec<Asked<'a>>,
    contract: &'a str,
    more: &[Asked<'a>],
) -> Result<(), AllocError>
    ensures { OnOk result (all_asked_view modes.new.items ≡ all_asked_view modes.old.items
        ++ map (imported_mode contract.now) (all_asked_view more.now)) }
{
    for mode in more {
        let imported = imported_mode(alloc, contract, mode)?;
        modes.push(imported)?;
    }
    Ok(())
}

/// The modes of that place.
#[tactic(auto, using(sys_texts::proofs::Gotten::seen_at))]
fn placed<'a, 's>(all: &'s [Vec<Asked<'a>>], place: usize) -> Option<&'s Vec<Asked<'a>>>
    ensures { option_map (λ v. all_asked_view v.now.items) result ≡ slice_get (each_asked_view all.now) place }
{
    all.get(place)
}

/// The modes that the call of this number has.
fn numbered<'a, 's>(all: &'s [Vec<Asked<'a>>], number: u32) -> Option<&'s Vec<Asked<'a>>>
    ensures { option_map (λ v. all_asked_view v.now.items) result ≡ counted_from_one (each_asked_view all.now) number }
{
    if number == 0 {
        return None;
    }
    placed(all, number as usize - 1)
}

/// The modes, and behind them those of the import of this number.
fn push_import<'a>(
    alloc: Global,
    modes: &mut Vec<Asked<'a>>,
    called: &[Vec<Asked<'a>>],
    number: u32,
    contract: &'a str,
) -> Result<(), AllocError>
    ensures { OnOk result (all_asked_view modes.new.items ≡ all_asked_view modes.old.items
        ++ map (imported_mode contract.now) (imported_at (each_asked_view called.now) number)) }
{
    match numbered(called, number) {
        Some(more) => push_modes(alloc, modes, contract, more),
        None => Ok(()),
    }
}

/// The modes with that of a statement.
fn add_statement<'a>(
    alloc: Global,
    sight: &Sight<'_>,
    called: &[Vec<Asked<'a>>],
    modes: &mut Vec<Asked<'a>>,
    statement: &'a ContractItem,
) -> Result<(), AllocError>
    ensures { OnOk result (all_asked_view modes.new.items ≡ with_statement (sight_view sight.now)
        (each_asked_view called.now) (all_asked_view modes.old.items) (contract_item_view statement.now)) }
{
    match statement {
        ContractItem::Mode(name, requires_all, _) => {
            let mode = own_mode(alloc, sight, modes, name, requires_all)?;
            modes.push(mode)?;
            Ok(())
        }
        ContractItem::Import(number, contract, _, _) => {
            push_import(alloc, modes, called, *number, &contract.text)
        }
        ContractItem::Assume(_)
        | ContractItem::Guarantee(_)
        | ContractItem::Ghost(_, _)
        | ContractItem::Constant(_) => Ok(()),
    }
}

/// The modes of a contract, where `called` has those of the declaration's calls and imports, by their numbers from 1.
///
/// # Errors
///
/// Want of memory.
pub fn contract_modes<'a>(
    alloc: Global,
    sight: &Sight<'_>,
    called: &[Vec<Asked<'a>>],
    statements: &'a [ContractItem],
) -> Result<Vec<Asked<'a>>, AllocError>
    ensures { IfOk result (λ v. all_asked_view v.items ≡ contract_modes (sight_view sight.now)
        (each_asked_view called.now) (map contract_item_view statements.now)) }
{
    let mut modes = Vec::new(alloc);
    for statement in statements {
        add_statement(alloc, sight, called, &mut modes, statement)?;
    }
    Ok(modes)
}
