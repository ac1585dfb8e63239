//! Assertions, properties, and what callees assume.

ghost use Rattle.std.specs.Prelude.{◌≡◌, ◌++◌, ◌∷◌, [], IfOk, OnOk, map};
ghost use Rattle.lus_tree.specs.View.{expr_view, item_view};
ghost use Rattle.slot_values.specs.Resolution.{resolved_view};
ghost use Rattle.sys_texts.specs.Views.{sight_view};
ghost use Rattle.condition_laws.specs.Conditions.{where_active};
ghost use Rattle.frame_sources.specs.Resolved.{resolved_by};
ghost use Rattle.frame_sources.specs.Views.{all_asked_view};
ghost use Rattle.frame_conditions.specs.Conditioned.{asserts_by, owed, properties_by};
ghost use Rattle.frame_conditions.specs.Views.{resolutions_view};

use frame_sources::copies::copied;
use frame_sources::frame::resolved;
use frame_sources::modes::Asked;
use lus_meaning::Value;
use lus_tree::{Expr, Item};
use slot_values::Resolved;
use std::alloc::{AllocError, Global};
use sys_texts::sight::Sight;

/// What is said of a frame with this beat: true where it is not active.
fn where_active(alloc: Global, beat: u32, said: Resolved) -> Result<Resolved, AllocError>
    ensures { IfOk result (λ r. resolved_view r ≡ where_active beat (resolved_view said)) }
{
    let said = Box::new(alloc, said)?;
    let elsewhere = Box::new(alloc, Resolved::Known(Some(Value::Truth(true))))?;
    Ok(Resolved::Merge(beat, said, elsewhere))
}

/// What an expression says where the frame is active.
fn asserted(
    alloc: Global,
    sight: &Sight<'_>,
    modes: &[Asked<'_>],
    e: &Expr,
) -> Result<Resolved, AllocError>
    ensures { IfOk result (λ r. resolved_view r ≡ where_active (sight_view sight.now).beat
        (resolved_by (sight_view sight.now) (all_asked_view modes.now) (expr_view e.now))) }
{
    let said = resolved(alloc, sight, modes, e)?;
    where_active(alloc, sight.beat, said)
}

/// The expressions, and behind them what an item asserts.
fn push_assertion(
    alloc: Global,
    resolutions: &mut Vec<Resolved>,
    sight: &Sight<'_>,
    modes: &[Asked<'_>],
    item: &Item,
) -> Result<(), AllocError>
    ensures { OnOk result (resolutions_view resolutions.new.items ≡ resolutions_view resolutions.old.items
        ++ asserts_by (sight_view sight.now) (all_asked_view modes.now) (item_view item.now ∷ [])) }
{
    if let Item::Assert(e) = item {
        let condition = asserted(alloc, sight, modes, e)?;
        resolutions.push(condition)?;
    }
    Ok(())
}

/// The expressions, and behind them what a body asserts.
///
/// # Errors
///
/// Want of memory.
pub fn push_assertions(
    alloc: Global,
    resolutions: &mut Vec<Resolved>,
    sight: &Sight<'_>,
    modes: &[Asked<'_>],
    items: &[Item],
) -> Result<(), AllocError>
    ensures { OnOk result (resolutions_view resolutions.new.items ≡ resolutions_view resolutions.old.items
        ++ asserts_by (sight_view sight.now) (all_asked_view modes.now) (map item_view items.now)) }
{
    for item in items {
        push_assertion(alloc, resolutions, sight, modes, item)?;
    }
    Ok(())
}

/// The expressions, and behind them an item's property.
fn push_property(
    alloc: Global,
    resolutions: &mut Vec<Resolved>,
    sight: &Sight<'_>,
    modes: &[Asked<'_>],
    item: &Item,
) -> Result<(), AllocError>
    ensures { OnOk result (resolutions_view resolutions.new.items ≡ resolutions_view resolutions.old.items
        ++ properties_by (sight_view sight.now) (all_asked_view modes.now) (item_view item.now ∷ [])) }
{
    if let Item::Property(property) = item {
        let said = resolved(alloc, sight, modes, &property.value)?;
        resolutions.push(said)?;
    }
    Ok(())
}

/// The expressions, and behind them the properties of a body.
///
/// # Errors
///
/// Want of memory.
pub fn push_properties(
    alloc: Global,
    resolutions: &mut Vec<Resolved>,
    sight: &Sight<'_>,
    modes: &[Asked<'_>],
    items: &[Item],
) -> Result<(), AllocError>
    ensures { OnOk result (resolutions_view resolutions.new.items ≡ resolutions_view resolutions.old.items
        ++ properties_by (sight_view sight.now) (all_asked_view modes.now) (map item_view items.now)) }
{
    for item in items {
        push_property(alloc, resolutions, sight, modes, item)?;
    }
    Ok(())
}

/// The expressions, and behind them what a callee assumes, where its frame is active, which has this beat.
///
/// # Errors
///
/// Want of memory.
pub fn push_owed(
    alloc: Global,
    resolutions: &mut Vec<Resolved>,
    beat: u32,
    assumes: &[Resolved],
) -> Result<(), AllocError>
    ensures { OnOk result (resolutions_view resolutions.new.items ≡ resolutions_view resolutions.old.items
        ++ owed beat (resolutions_view assumes.now)) }
{
    for assumption in assumes {
        let copy = copied(alloc, assumption)?;
        let condition = where_active(alloc, beat, copy)?;
        resolutions.push(condition)?;
    }
    Ok(())
}
