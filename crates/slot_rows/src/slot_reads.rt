//! What each source reads.

ghost use Rattle.std.specs.Prelude.{◌≡◌, IfOk, length, map};
ghost use Rattle.slot_sources.specs.Source.{source_view};
ghost use Rattle.slot_rows.specs.Order.{reads_each, reads_of};
ghost use Rattle.slot_rows.specs.SlotReads.{reads_view};

use crate::reads::reads_now;
use slot_sources::Source;
use std::alloc::{AllocError, Global};

/// For each slot those whose values of the same instant its source reads.
#[derive(Drop)]
pub(crate) struct SlotReads {
    pub(crate) rows: Vec<Vec<u32>>,
}

impl SlotReads {
    /// What these sources read.
    pub(crate) fn of(alloc: Global, sources: &[Source]) -> Result<Self, AllocError>
        ensures { IfOk result (λ r. reads_view r ≡ reads_each (map source_view sources.now)) }
    {
        let mut rows = Vec::new(alloc);
        for source in sources {
            rows.push(reads_now(alloc, source)?)?;
        }
        Ok(SlotReads { rows })
    }

    /// How many slots there are.
    pub(crate) fn len(&self) -> usize
        ensures { result ≡ length (reads_view self.now) }
    {
        self.rows.len()
    }

    /// What the source of a slot reads.
    pub(crate) fn row(&self, slot: usize) -> &[u32]
        ensures { result.now ≡ reads_of (reads_view self.now) slot }
    {
        if slot < self.rows.len() {
            &self.rows[slot]
        } else {
            &[]
        }
    }
}
