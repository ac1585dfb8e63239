//! What a contract promises.

ghost use Rattle.std.specs.Prelude.{◌≡◌, ◌++◌, IfOk, OnOk, flat_map, map};
ghost use Rattle.sys_terms.specs.View.{terms_view};
ghost use Rattle.sys_texts.specs.Views.{modes_view};
ghost use Rattle.sys_contracts.specs.Items.{one_mode, promises};
ghost use Rattle.sys_contracts.specs.Views.{items_view};

use crate::items::{Items, push_copies};
use std::alloc::{AllocError, Global};
use sys_parts::joins::some_of;
use sys_terms::Term;
use sys_texts::sight::Mode;

/// The formulas, and behind them what these modes ensure.
fn push_ensures(
    alloc: Global,
    formulas: &mut Vec<Term>,
    modes: &[Mode<'_>],
) -> Result<(), AllocError>
    ensures { OnOk result (terms_view formulas.new.items ≡ terms_view formulas.old.items
        ++ flat_map (λ m. m.ensures_each) (modes_view modes.now)) }
{
    for mode in modes {
        push_copies(alloc, formulas, &mode.ensures_each)?;
    }
    Ok(())
}

/// What these modes ask.
fn all_asked(alloc: Global, modes: &[Mode<'_>]) -> Result<Vec<Term>, AllocError>
    ensures { IfOk result (λ v. terms_view v.items ≡ map (λ n. n.asked) (modes_view modes.now)) }
{
    let mut formulas = Vec::new(alloc);
    for mode in modes {
        let copy = mode.asked.copied(alloc)?;
        formulas.push(copy)?;
    }
    Ok(formulas)
}

/// The formulas, and behind them that one of these modes is active, where there is one.
fn push_one_mode(
    alloc: Global,
    formulas: &mut Vec<Term>,
    modes: &[Mode<'_>],
) -> Result<(), AllocError>
    ensures { OnOk result (terms_view formulas.new.items ≡ terms_view formulas.old.items
        ++ one_mode (modes_view modes.now)) }
{
    match modes {
        [] => Ok(()),
        [_, ..] => {
            let asked = all_asked(alloc, modes)?;
            let active = some_of(alloc, &asked)?;
            formulas.push(active)?;
            Ok(())
        }
    }
}

/// The formulas, and behind them what a contract promises: its guarantees, its ensures where their mode is active,
/// and that a mode is, where there is one.
///
/// # Errors
///
/// Want of memory.
pub fn push_promises(
    alloc: Global,
    formulas: &mut Vec<Term>,
    items: &Items<'_>,
) -> Result<(), AllocError>
    ensures { OnOk result (terms_view formulas.new.items ≡ terms_view formulas.old.items
        ++ promises (items_view items.now)) }
{
    push_copies(alloc, formulas, &items.guarantees)?;
    push_ensures(alloc, formulas, &items.modes)?;
    push_one_mode(alloc, formulas, &items.modes)
}
