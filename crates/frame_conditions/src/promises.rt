//! What a contract promises.

ghost use Rattle.std.specs.Prelude.{◌≡◌, ◌++◌, IfOk, OnOk, map};
ghost use Rattle.slot_values.specs.Resolution.{resolved_view};
ghost use Rattle.condition_laws.specs.Conditions.{some_resolved};
ghost use Rattle.frame_sources.specs.Views.{all_asked_view};
ghost use Rattle.frame_conditions.specs.Conditioned.{either, one_mode, promises};
ghost use Rattle.frame_conditions.specs.Views.{conditions_view, resolutions_view};

use crate::conditions::{Conditions, push_copies};
use frame_sources::copies::copied;
use frame_sources::modes::Asked;
use lus_meaning::Value;
use lus_tree::{Operator, Pos};
use slot_values::Resolved;
use std::alloc::{AllocError, Global};

/// That one of both is true, which stands at no place.
fn either(alloc: Global, a: Resolved, b: Resolved) -> Result<Resolved, AllocError>
    ensures { IfOk result (λ r. resolved_view r ≡ either (resolved_view a) (resolved_view b)) }
{
    let nowhere = Pos { line: 0, column: 0 };
    let a = Box::new(alloc, a)?;
    let b = Box::new(alloc, b)?;
    Ok(Resolved::Binary(nowhere, Operator::Or, a, b))
}

/// That one of these modes is active.
fn some_active(alloc: Global, modes: &[Asked<'_>]) -> Result<Resolved, AllocError>
    ensures { IfOk result (λ r. resolved_view r ≡ some_resolved (map (λ m. m.asked) (all_asked_view modes.now))) }
{
    match modes {
        [] => Ok(Resolved::Known(Some(Value::Truth(false)))),
        [only] => copied(alloc, &only.asked),
        [first, rest @ ..] => {
            let first = copied(alloc, &first.asked)?;
            let rest = some_active(alloc, rest)?;
            either(alloc, first, rest)
        }
    }
}

/// The expressions, and behind them that one of these modes is active, where there is one.
fn push_one_mode(
    alloc: Global,
    resolutions: &mut Vec<Resolved>,
    modes: &[Asked<'_>],
) -> Result<(), AllocError>
    ensures { OnOk result (resolutions_view resolutions.new.items ≡ resolutions_view resolutions.old.items
        ++ one_mode (all_asked_view modes.now)) }
{
    match modes {
        [] => Ok(()),
        [_, ..] => {
            let active = some_active(alloc, modes)?;
            resolutions.push(active)?;
            Ok(())
        }
    }
}

/// The expressions, and behind them what a contract promises: its guarantees, its ensures where their mode is active,
/// and that a mode is, where there is one.
pub(crate) fn push_promises(
    alloc: Global,
    resolutions: &mut Vec<Resolved>,
    conditions: &Conditions<'_>,
) -> Result<(), AllocError>
    ensures { OnOk result (resolutions_view resolutions.new.items ≡ resolutions_view resolutions.old.items
        ++ promises (conditions_view conditions.now)) }
{
    push_copies(alloc, resolutions, &conditions.guarantees)?;
    push_copies(alloc, resolutions, &conditions.ensured)?;
    push_one_mode(alloc, resolutions, &conditions.modes)
}
