//! Frames that are kept, each by the number of its beat, so that none is made twice.

ghost use Rattle.std.specs.Prelude.{◌≡◌, ℕ, [], None, IfOk, IfSome, IsTrue, OnOk, List, Some, replicate};
ghost use Rattle.evaluation_parts.specs.PartViews.{filled};
ghost use Rattle.slot_replay.specs.Parts.{part_view};
ghost use Rattle.sys_tables.specs.Tabled.{Tabled};
ghost use Rattle.sys_tables.specs.Views.{tables_view};
ghost use Rattle.part_resolver.specs.SlotParts.{part_at};
ghost use Rattle.part_resolver.specs.Seats.{HasRoomAt};
ghost use Rattle.part_resolver.specs.Seen.{AreKept, IsSeen};

use crate::seats::Seat;
use crate::seen::{Seen, part_in, seen_at};
use evaluation_parts::part::Part;
use frame_sources::imports::Tables;
use lus_limits::Way;
use slot_replay::PartAt;
use std::alloc::{AllocError, Global};

/// Room for so many frames.
pub(crate) fn none_kept<'a>(alloc: Global, count: u32) -> Result<Vec<Option<Seen<'a>>>, AllocError>
    ensures { IfOk result (λ v. v.items ≡ replicate count None) }
{
    let mut kept = Vec::with_capacity(alloc, count as usize)?;
    for _ in 0..count {
        kept.push(None)?;
    }
    Ok(kept)
}

/// Whether frames run the same way.
fn is_way(way: Way, other: Way) -> bool
    ensures { IsTrue result → way ≡ other }
{
    match (way, other) {
        (Way::Plain, Way::Plain) => true,
        (Way::Condition, Way::Condition) => true,
        (Way::Import, Way::Import) => true,
        (Way::Plain, Way::Condition | Way::Import) => false,
        (Way::Condition, Way::Plain | Way::Import) => false,
        (Way::Import, Way::Plain | Way::Condition) => false,
    }
}

/// Whether that is where the other is.
fn is_seat(seat: Seat, other: Seat) -> bool
    ensures { IsTrue result → seat ≡ other }
{
    seat.depth == other.depth
        && seat.place == other.place
        && is_way(seat.way, other.way)
        && seat.base == other.base
}

/// The frame that is there, where it is kept.
#[tactic(auto, using(crate::proofs::Keeps::is_seen))]
fn kept_at<'k, 'a>(
    tables: Tables<'a, '_>,
    kept: &'k [Option<Seen<'a>>],
    seat: Seat,
) -> Option<&'k Seen<'a>>
    requires kept { AreKept (tables_view tables.all.now) tables.missing kept.now }
    ensures seat { IfSome result (λ f. f.now.seat ≡ seat) }
    ensures seen { IfSome result (λ f. IsSeen (tables_view tables.entry.all.now) tables.entry.missing f.now) }
{
    match kept.get(seat.base as usize) {
        Some(Some(seen)) => {
            if is_seat(seen.seat, seat) {
                Some(seen)
            } else {
                None
            }
        }
        Some(None) | None => None,
    }
}

/// Keeps a frame.
fn keep<'a>(kept: &mut Vec<Option<Seen<'a>>>, seen: Seen<'a>)
    ensures { (ts : List Tabled) (missing : ℕ) → AreKept ts missing kept.old.items → IsSeen ts missing seen.entry
        → AreKept ts missing kept.new.items }
{
    let place = seen.seat.base as usize;
    if place < kept.len() {
        kept[place] = Some(seen);
    }
}

/// A part of the frame that is there, which is kept for the next ones.
pub(crate) fn part_at<'a>(
    tables: Tables<'a, '_>,
    kept: &mut Vec<Option<Seen<'a>>>,
    seat: Seat,
    part: &Part<'_>,
) -> Result<PartAt, AllocError>
    requires room { HasRoomAt (tables_view tables.all.now) seat }
    requires kept { AreKept (tables_view tables.all.now) tables.missing kept.old.items }
    ensures kept { OnOk result (AreKept (tables_view tables.entry.all.now) tables.entry.missing kept.new.items) }
    ensures part { IfOk result (λ p. part_view p ≡ part_at (tables_view tables.entry.all.now) tables.entry.missing
        seat (filled [] part.now)) }
{
    if let Some(seen) = kept_at(tables, kept, seat) {
        return part_in(tables.alloc, seen, part);
    }
    let seen = seen_at(tables, seat)?;
    let made = part_in(tables.alloc, &seen, part)?;
    keep(kept, seen);
    Ok(made)
}
