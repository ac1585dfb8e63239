//! What is imported.

ghost use Rattle.std.specs.Prelude.{◌≡◌, ◌++◌, IfOk, OnOk, map, option_map, slice_get};
ghost use Rattle.sys_texts.specs.Sights.{counted_from_one};
ghost use Rattle.sys_texts.specs.Views.{mode_view, modes_view, way_view};
ghost use Rattle.sys_contracts.specs.Items.{imported_at, imported_mode, way_through, with_import};
ghost use Rattle.sys_contracts.specs.Views.{all_items_view, items_view};

use crate::items::{Items, copies, push_copies};
use std::alloc::{AllocError, Global};
use sys_texts::sight::{Mode, Way};

/// A way with an import before it.
fn way_through<'a>(contract: &'a str, way: Way<'_>) -> Way<'a>
    ensures { way_view result ≡ way_through contract.now (way_view way.entry) }
{
    match way {
        Way::Own => Way::Through(contract),
        Way::Through(_) | Way::Deeper => Way::Deeper,
    }
}

/// A mode of an import.
fn imported_mode<'a>(
    alloc: Global,
    contract: &'a str,
    mode: &Mode<'a>,
) -> Result<Mode<'a>, AllocError>
    ensures { IfOk result (λ m. mode_view m ≡ imported_mode contract.now (mode_view mode.now)) }
{
    let asked = mode.asked.copied(alloc)?;
    let ensures_each = copies(alloc, &mode.ensures_each)?;
    Ok(Mode {
        way: way_through(contract, mode.way),
        name: mode.name,
        asked,
        ensures_each,
    })
}

/// The modes, and behind them those of an import.
fn push_modes<'a>(
    alloc: Global,
    modes: &mut Vec<Mode<'a>>,
    contract: &'a str,
    more: &[Mode<'a>],
) -> Result<(), AllocError>
    ensures { OnOk result (modes_view modes.new.items ≡ modes_view modes.old.items
        ++ map (imported_mode contract.now) (modes_view more.now)) }
{
    for mode in more {
        let imported = imported_mode(alloc, contract, mode)?;
        modes.push(imported)?;
    }
    Ok(())
}

/// The items, and behind them those of an import.
fn push_items<'a>(
    alloc: Global,
    items: &mut Items<'a>,
    contract: &'a str,
    more: &Items<'a>,
) -> Result<(), AllocError>
    ensures { OnOk result (items_view items.new ≡ with_import (items_view items.old) contract.now
        (items_view more.now)) }
{
    push_copies(alloc, &mut items.assumes, &more.assumes)?;
    push_copies(alloc, &mut items.guarantees, &more.guarantees)?;
    push_modes(alloc, &mut items.modes, contract, &more.modes)
}

/// The items of that place.
#[tactic(auto, using(sys_texts::proofs::Gotten::seen_at))]
fn placed<'a, 's>(all: &'s [Items<'a>], place: usize) -> Option<&'s Items<'a>>
    ensures { option_map (λ i. items_view i.now) result ≡ slice_get (all_items_view all.now) place }
{
    all.get(place)
}

/// The items that the call of this number has.
fn numbered<'a, 's>(all: &'s [Items<'a>], number: u32) -> Option<&'s Items<'a>>
    ensures { option_map (λ i. items_view i.now) result ≡ counted_from_one (all_items_view all.now) number }
{
    if number == 0 {
        return None;
    }
    placed(all, number as usize - 1)
}

/// The items, and behind them those of the import of this number.
pub(crate) fn push_import<'a>(
    alloc: Global,
    items: &mut Items<'a>,
    called: &[Items<'a>],
    number: u32,
    contract: &'a str,
) -> Result<(), AllocError>
    ensures { OnOk result (items_view items.new ≡ with_import (items_view items.old) contract.now
        (imported_at (all_items_view called.now) number)) }
{
    match numbered(called, number) {
        Some(more) => push_items(alloc, items, contract, more),
        None => Ok(()),
    }
}
