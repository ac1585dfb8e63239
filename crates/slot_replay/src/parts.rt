//! The parts of an instant.

ghost use Rattle.std.specs.Prelude.{◌≡◌, IfOk, List, map, slice_get};
ghost use Rattle.slot_values.specs.Evaluated.{slots_in};
ghost use Rattle.slot_replay.specs.Parts.{Part, part_view, pasts_of};

use slot_rows::is_on;
use slot_sources::Switch;
use slot_values::{PastAt, Resolved, SlotValue, evaluate};
use std::alloc::{AllocError, Global};

/// An expression that is evaluated where its clock is on.
#[derive(Drop)]
pub struct PartAt {
    pub clock: Switch,
    pub expression: Resolved,
}

/// What is evaluated at each instant, in order. It is made only where an operation was outside 128 bits.
pub trait Parts {
    /// Whether these are the parts, as contracts see them.
    ghost are_parts: { Self → List Part → Type 0 };

    /// The parts.
    ///
    /// # Errors
    ///
    /// Want of memory.
    fn in_order(&self, alloc: Global) -> Result<Vec<PartAt>, AllocError>
        ensures { IfOk result (λ v. are_parts self.now (map part_view v.items)) };
}

/// The first operation of the first part that has one outside 128 bits.
pub(crate) fn first_past(parts: &[PartAt], row: &[SlotValue]) -> Option<PastAt>
    ensures { result ≡ slice_get (pasts_of (slots_in row.now) (map part_view parts.now)) 0 }
{
    for part in parts {
        if let Err(past) = evaluate(&part.expression, is_on(&part.clock, row), row) {
            return Some(past);
        }
    }
    None
}
