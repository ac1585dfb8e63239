//! What is imported.

ghost use Rattle.std.specs.Prelude.{◌≡◌, OnOk, option_map, slice_get};
ghost use Rattle.sys_texts.specs.Sights.{counted_from_one};
ghost use Rattle.frame_conditions.specs.Conditioned.{imported_at, with_import};
ghost use Rattle.frame_conditions.specs.Views.{all_conditions_view, conditions_view};

use crate::conditions::{Conditions, push_copies};
use frame_sources::contracts::push_modes;
use std::alloc::{AllocError, Global};

/// The conditions, and behind them those of an import.
fn push_conditions<'a>(
    alloc: Global,
    conditions: &mut Conditions<'a>,
    contract: &'a str,
    more: &Conditions<'a>,
) -> Result<(), AllocError>
    ensures { OnOk result (conditions_view conditions.new ≡ with_import (conditions_view conditions.old) contract.now
        (conditions_view more.now)) }
{
    push_copies(alloc, &mut conditions.assumes, &more.assumes)?;
    push_copies(alloc, &mut conditions.guarantees, &more.guarantees)?;
    push_modes(alloc, &mut conditions.modes, contract, &more.modes)?;
    push_copies(alloc, &mut conditions.ensured, &more.ensured)
}

/// The conditions of that place.
#[tactic(auto, using(sys_texts::proofs::Gotten::seen_at))]
fn placed<'a, 's>(all: &'s [Conditions<'a>], place: usize) -> Option<&'s Conditions<'a>>
    ensures { option_map (λ r. conditions_view r.now) result ≡ slice_get (all_conditions_view all.now) place }
{
    all.get(place)
}

/// The conditions that the call of this number has.
fn numbered<'a, 's>(all: &'s [Conditions<'a>], number: u32) -> Option<&'s Conditions<'a>>
    ensures { option_map (λ r. conditions_view r.now) result
        ≡ counted_from_one (all_conditions_view all.now) number }
{
    if number == 0 {
        return None;
    }
    placed(all, number as usize - 1)
}

/// The conditions, and behind them those of the import of this number.
pub(crate) fn push_import<'a>(
    alloc: Global,
    conditions: &mut Conditions<'a>,
    called: &[Conditions<'a>],
    number: u32,
    contract: &'a str,
) -> Result<(), AllocError>
    ensures { OnOk result (conditions_view conditions.new ≡ with_import (conditions_view conditions.old) contract.now
        (imported_at (all_conditions_view called.now) number)) }
{
    match numbered(called, number) {
        Some(more) => push_conditions(alloc, conditions, contract, more),
        None => Ok(()),
    }
}
