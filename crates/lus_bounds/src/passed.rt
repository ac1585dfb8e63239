//! The first limit that a declaration passes.

ghost use Rattle.std.specs.Prelude.{◌≡◌, ◌++◌, Option, get_or};
ghost use Rattle.lus_meaning.specs.Limits.{passed, text_limits};
ghost use Rattle.lus_bounds.specs.Passed.{size_at, size_limits};
ghost use Rattle.lus_streams.specs.Owner.{owner_view};

use crate::names::name_count;
use lus_limits::SystemSize;
use lus_streams::owner::Owner;

/// The first that its text passes, behind so many declarations with parts.
pub(crate) fn text_passed(before: usize, part: Owner<'_>) -> Option<u64>
    ensures { result ≡ passed (text_limits before (owner_view part.entry)) }
{
    if before >= 500 {
        Some(500)
    } else if name_count(part) > 2_000 {
        Some(2_000)
    } else {
        None
    }
}

/// The first that a system of that size passes.
fn system_passed(size: SystemSize) -> Option<u64>
    ensures { result ≡ passed (size_limits size) }
{
    if size.properties > 500 {
        Some(500)
    } else if size.variables > 20_000 {
        Some(20_000)
    } else if size.levels > 4_000 {
        Some(4_000)
    } else if size.parts > 1_000_000 {
        Some(1_000_000)
    } else {
        None
    }
}

/// The first that a node passes, by its text or by the size of its system.
#[tactic(auto, using(crate::proofs::FirstPassed::passed_first, crate::proofs::FirstPassed::passed_later))]
pub(crate) fn node_passed(before: usize, part: Owner<'_>, size: SystemSize) -> Option<u64>
    ensures { result ≡ passed (text_limits before (owner_view part.entry) ++ size_limits size) }
{
    match text_passed(before, part) {
        Some(limit) => Some(limit),
        None => system_passed(size),
    }
}

/// The size with that number.
pub(crate) fn size_at(sizes: &[SystemSize], number: usize) -> SystemSize
    ensures { result ≡ size_at sizes.now number }
{
    if number < sizes.len() {
        sizes[number]
    } else {
        SystemSize {
            properties: 0,
            variables: 0,
            levels: 0,
            parts: 0,
        }
    }
}
