//! Assertions, properties, and what callees assume.

ghost use Rattle.std.specs.Prelude.{◌≡◌, ◌++◌, ◌∷◌, [], IfOk, OnOk, map};
ghost use Rattle.lus_tree.specs.View.{expr_view, item_view};
ghost use Rattle.sys_terms.specs.View.{term_view, terms_view};
ghost use Rattle.sys_texts.specs.Texts.{formula};
ghost use Rattle.sys_texts.specs.Views.{modes_view, sight_view};
ghost use Rattle.sys_conditions.specs.Conditioned.{assert_conditions, body_properties, owed, where_active};

use lus_tree::{Expr, Item};
use std::alloc::{AllocError, Global};
use sys_parts::formulas::{flag, implies};
use sys_terms::Term;
use sys_texts::sight::{Mode, Sight};
use sys_texts::texts::formula;

/// Where a frame is active the formula is true.
pub(crate) fn where_active(alloc: Global, beat: u32, said: Term) -> Result<Term, AllocError>
    ensures { IfOk result (λ t. term_view t ≡ where_active beat (term_view said)) }
{
    implies(alloc, flag(beat), said)
}

/// Where the frame is active an expression is true.
fn asserted(
    alloc: Global,
    sight: &Sight<'_>,
    modes: &[Mode<'_>],
    e: &Expr,
) -> Result<Term, AllocError>
    ensures { IfOk result (λ t. term_view t ≡ where_active (sight_view sight.now).beat
        (formula (sight_view sight.now) (modes_view modes.now) (expr_view e.now))) }
{
    let said = formula(alloc, sight, modes, e)?;
    where_active(alloc, sight.beat, said)
}

/// The formulas, and behind them what an item asserts.
fn push_assertion(
    alloc: Global,
    formulas: &mut Vec<Term>,
    sight: &Sight<'_>,
    modes: &[Mode<'_>],
    item: &Item,
) -> Result<(), AllocError>
    ensures { OnOk result (terms_view formulas.new.items ≡ terms_view formulas.old.items
        ++ assert_conditions (sight_view sight.now) (modes_view modes.now) (item_view item.now ∷ [])) }
{
    if let Item::Assert(e) = item {
        let condition = asserted(alloc, sight, modes, e)?;
        formulas.push(condition)?;
    }
    Ok(())
}

/// The formulas, and behind them what a body asserts.
///
/// # Errors
///
/// Want of memory.
pub fn push_assertions(
    alloc: Global,
    formulas: &mut Vec<Term>,
    sight: &Sight<'_>,
    modes: &[Mode<'_>],
    items: &[Item],
) -> Result<(), AllocError>
    ensures { OnOk result (terms_view formulas.new.items ≡ terms_view formulas.old.items
        ++ assert_conditions (sight_view sight.now) (modes_view modes.now) (map item_view items.now)) }
{
    for item in items {
        push_assertion(alloc, formulas, sight, modes, item)?;
    }
    Ok(())
}

/// The formulas, and behind them an item's property.
fn push_property(
    alloc: Global,
    formulas: &mut Vec<Term>,
    sight: &Sight<'_>,
    modes: &[Mode<'_>],
    item: &Item,
) -> Result<(), AllocError>
    ensures { OnOk result (terms_view formulas.new.items ≡ terms_view formulas.old.items
        ++ body_properties (sight_view sight.now) (modes_view modes.now) (item_view item.now ∷ [])) }
{
    if let Item::Property(property) = item {
        let said = formula(alloc, sight, modes, &property.value)?;
        formulas.push(said)?;
    }
    Ok(())
}

/// The formulas, and behind them the properties of a body.
///
/// # Errors
///
/// Want of memory.
pub fn push_properties(
    alloc: Global,
    formulas: &mut Vec<Term>,
    sight: &Sight<'_>,
    modes: &[Mode<'_>],
    items: &[Item],
) -> Result<(), AllocError>
    ensures { OnOk result (terms_view formulas.new.items ≡ terms_view formulas.old.items
        ++ body_properties (sight_view sight.now) (modes_view modes.now) (map item_view items.now)) }
{
    for item in items {
        push_property(alloc, formulas, sight, modes, item)?;
    }
    Ok(())
}

/// The formulas, and behind them what a callee assumes, where its frame is active.
///
/// # Errors
///
/// Want of memory.
pub fn push_owed(
    alloc: Global,
    formulas: &mut Vec<Term>,
    beat: u32,
    assumes: &[Term],
) -> Result<(), AllocError>
    ensures { OnOk result (terms_view formulas.new.items ≡ terms_view formulas.old.items
        ++ owed beat (terms_view assumes.now)) }
{
    for assumption in assumes {
        let copy = assumption.copied(alloc)?;
        let condition = where_active(alloc, beat, copy)?;
        formulas.push(condition)?;
    }
    Ok(())
}
