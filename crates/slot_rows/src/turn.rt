//! The turn of a slot.

ghost use Rattle.std.specs.Prelude.{◌≡◌};
ghost use Rattle.slot_sources.specs.Source.{source_view};
ghost use Rattle.slot_rows.specs.Stillness.{has_plain, has_still};

use crate::stillness::{has_plain, has_still};
use slot_sources::Source;

/// A slot and its source.
#[derive(Clone, Copy)]
pub(crate) struct Turn<'s> {
    pub(crate) slot: usize,
    pub(crate) source: &'s Source,
    /// Whether nothing is outside 128 bits in its expression.
    pub(crate) is_plain: bool,
    /// Whether its expression has no value where its clock is off, and nothing is outside in it there.
    pub(crate) is_still: bool,
    ghost plain: { is_plain ≡ has_plain (source_view source.now) },
    ghost still: { is_still ≡ has_still (source_view source.now) },
}

impl<'s> Turn<'s> {
    /// The turn of a slot with that source.
    pub(crate) fn of(slot: usize, source: &'s Source) -> Turn<'s>
        ensures slot { result.slot ≡ slot }
        ensures source { result.source.now ≡ source.now }
    {
        Turn {
            slot,
            source,
            is_plain: has_plain(source),
            is_still: has_still(source),
        }
    }
}
