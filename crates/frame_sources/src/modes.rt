//! What modes ask, as expressions over slots.

ghost use Rattle.std.specs.Prelude.{◌≡◌, IfOk, option_map};
ghost use Rattle.slot_values.specs.Resolution.{resolved_view};
ghost use Rattle.sys_texts.specs.Sights.{is_way};
ghost use Rattle.sys_texts.specs.Views.{way_view};
ghost use Rattle.frame_sources.specs.Resolved.{asked_of};
ghost use Rattle.frame_sources.specs.Views.{all_asked_view};

use crate::copies::copied;
use lus_meaning::Value;
use slot_values::Resolved;
use std::alloc::{AllocError, Global};
use sys_texts::sight::Way;

/// A mode: the way to it, its name, and what it asks.
#[derive(Drop)]
pub struct Asked<'a> {
    pub way: Way<'a>,
    pub name: &'a str,
    pub asked: Resolved,
}

/// Whether a way is of the contract itself, or of the one of this name.
fn is_way(contract: Option<&str>, way: Way<'_>) -> bool
    ensures { result ≡ is_way (option_map (λ c. c.now) contract.entry) (way_view way.entry) }
{
    match (contract, way) {
        (None, Way::Own) => true,
        (Some(contract), Way::Through(name)) => contract == name,
        (None, Way::Through(_) | Way::Deeper) | (Some(_), Way::Own | Way::Deeper) => false,
    }
}

/// What the first mode of that name asks.
pub(crate) fn asked_of(
    alloc: Global,
    modes: &[Asked<'_>],
    contract: Option<&str>,
    mode: &str,
) -> Result<Resolved, AllocError>
    ensures { IfOk result (λ r. resolved_view r ≡ asked_of (all_asked_view modes.now)
        (option_map (λ c. c.now) contract.entry) mode.now) }
{
    for entry in modes {
        if is_way(contract, entry.way) && mode == entry.name {
            return copied(alloc, &entry.asked);
        }
    }
    Ok(Resolved::Known(Some(Value::Truth(false))))
}
