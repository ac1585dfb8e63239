//! Slots that no line lists yet.

ghost use Rattle.std.specs.Prelude.{◌≡◌, IfOk, map};
ghost use Rattle.trace_fits.specs.Filling.{no_seats, seats_needed};
ghost use Rattle.trace_fits.specs.Views.{seats_view, slotted_view};

use crate::fitting::Seats;
use crate::permitted::Listable;
use std::alloc::{AllocError, Global};

/// How many slots there have to be.
pub(crate) fn seats_needed(listables: &[Listable<'_>]) -> usize
    ensures { result ≡ seats_needed 0 (map slotted_view listables.now) }
{
    let mut count: usize = 0;
    for listable in listables {
        count = count.max(listable.slot as usize + 1);
    }
    count
}

/// As many slots, none of which has values.
pub(crate) fn no_seats<'t>(alloc: Global, count: usize) -> Result<Seats<'t>, AllocError>
    ensures { IfOk result (λ v. seats_view v.items ≡ no_seats count) }
{
    let mut seats = Vec::with_capacity(alloc, count)?;
    for index in 0..count {
        prove!(index < count);
        seats.push(None)?;
    }
    Ok(seats)
}
