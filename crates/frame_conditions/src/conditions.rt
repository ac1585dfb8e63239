//! The conditions of a contract.

ghost use Rattle.std.specs.Prelude.{◌≡◌, ◌++◌, OnOk};
ghost use Rattle.frame_conditions.specs.Conditioned.{no_conditions};
ghost use Rattle.frame_conditions.specs.Views.{conditions_view, resolutions_view};

use frame_sources::copies::copied;
use frame_sources::modes::Asked;
use slot_values::Resolved;
use std::alloc::{AllocError, Global};

/// The assumptions, the guarantees and the modes of a contract with those of its imports, and what the modes ensure
/// where they are active, each kind in text order.
#[derive(Drop)]
pub struct Conditions<'a> {
    pub assumes: Vec<Resolved>,
    pub guarantees: Vec<Resolved>,
    pub modes: Vec<Asked<'a>>,
    pub ensured: Vec<Resolved>,
}

/// No conditions.
pub fn no_conditions<'a>(alloc: Global) -> Conditions<'a>
    ensures { conditions_view result ≡ no_conditions }
{
    Conditions {
        assumes: Vec::new(alloc),
        guarantees: Vec::new(alloc),
        modes: Vec::new(alloc),
        ensured: Vec::new(alloc),
    }
}

/// The expressions, and behind them equal ones of these.
///
/// # Errors
///
/// Want of memory.
pub fn push_copies(
    alloc: Global,
    resolutions: &mut Vec<Resolved>,
    more: &[Resolved],
) -> Result<(), AllocError>
    ensures { OnOk result (resolutions_view resolutions.new.items ≡ resolutions_view resolutions.old.items
        ++ resolutions_view more.now) }
{
    for resolution in more {
        let copy = copied(alloc, resolution)?;
        resolutions.push(copy)?;
    }
    Ok(())
}
