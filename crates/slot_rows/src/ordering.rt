//! The order of the slots.

ghost use Rattle.std.specs.Prelude.{◌≡◌, map, IfOk, MatchOption};
ghost use Rattle.slot_sources.specs.Source.{source_view};
ghost use Rattle.slot_rows.specs.Order.{HasNoOrder, IsSlotOrder};

use crate::search::Search;
use crate::slot_reads::SlotReads;
use slot_sources::Source;
use std::alloc::{AllocError, Global};

/// An order of the slots, each behind those that its source reads at the same instant; none where there is none, since
/// slots read each other in a circle.
///
/// # Errors
///
/// Want of memory.
pub fn order(alloc: Global, sources: &[Source]) -> Result<Option<Vec<usize>>, AllocError>
    ensures { IfOk result (λ o. MatchOption o (HasNoOrder (map source_view sources.now))
        (λ v. IsSlotOrder (map source_view sources.now) v.items)) }
{
    let reads = SlotReads::of(alloc, sources)?;
    let mut search = Search::new(alloc, reads.len())?;
    for root in 0..reads.len() {
        if !search.visit(&reads, root)? {
            return Ok(None);
        }
    }
    Ok(Some(search.order))
}
