//! Frames, with what names and numbers mean there.

ghost use Rattle.std.specs.Prelude.{◌≡◌, [], IfOk};
ghost use Rattle.evaluation_parts.specs.PartViews.{filled};
ghost use Rattle.sys_frames.specs.Walked.{HasRoomWithin};
ghost use Rattle.sys_tables.specs.Numbers.{sight_at};
ghost use Rattle.sys_tables.specs.Views.{table_view, tables_view};
ghost use Rattle.sys_texts.specs.Views.{sight_view};
ghost use Rattle.slot_replay.specs.Parts.{part_view};
ghost use Rattle.frame_sources.specs.Views.{all_asked_view};
ghost use Rattle.frame_sources.specs.Walked.{modes_within};
ghost use Rattle.part_resolver.specs.Seats.{HasRoomAt};
ghost use Rattle.part_resolver.specs.SlotParts.{blank, part_over};
ghost use Rattle.part_resolver.specs.Seen.{IsSeen};

use crate::seats::Seat;
use evaluation_parts::part::Part;
use frame_sources::frame::resolved;
use frame_sources::imports::{Tables, modes_seen, table_at};
use frame_sources::modes::Asked;
use frame_sources::switch_of;
use indexmap::IndexMap;
use slot_replay::PartAt;
use std::alloc::{AllocError, Global};
use sys_tables::numbers::behind_own;
use sys_tables::sight::sight;
use sys_tables::table::Table;
use sys_texts::sight::Sight;

/// A frame: where it is, its sight, and its modes.
#[derive(Drop)]
pub(crate) struct Seen<'a> {
    pub(crate) seat: Seat,
    pub(crate) sight: Sight<'a>,
    pub(crate) modes: Vec<Asked<'a>>,
}

/// The sight of no frame: nothing is there.
fn blank<'a>(alloc: Global, missing: u32) -> Sight<'a>
    ensures { sight_view result ≡ blank missing }
{
    Sight {
        beat: missing,
        missing,
        bound: 0,
        constants: IndexMap::new(alloc),
        streams: IndexMap::new(alloc),
        memories: Vec::new(alloc),
        starts: Vec::new(alloc),
        calls: Vec::new(alloc),
    }
}

/// The frame that is there, of that declaration.
#[tactic(auto, using(crate::proofs::Rooms::modes_step))]
fn seen_of<'a>(
    tables: Tables<'a, '_>,
    seat: Seat,
    table: &Table<'a>,
) -> Result<Seen<'a>, AllocError>
    requires room { HasRoomWithin seat.depth (tables_view tables.all.now) (table_view table.now) seat.way seat.base }
    ensures seat { IfOk result (λ f. f.seat ≡ seat) }
    ensures sight { IfOk result (λ f. sight_view f.sight ≡ sight_at (table_view table.now) seat.way
        seat.base tables.entry.missing) }
    ensures modes { IfOk result (λ f. all_asked_view f.modes.items ≡ modes_within seat.depth
        (tables_view tables.entry.all.now) tables.entry.missing (table_view table.now) seat.way
        seat.base) }
{
    let sight = sight(tables.alloc, table, seat.way, seat.base, tables.missing)?;
    let from = behind_own(table, seat.way, seat.base);
    let modes = modes_seen(tables, seat.depth, table, &sight, from)?;
    Ok(Seen { seat, sight, modes })
}

/// The frame that is there.
pub(crate) fn seen_at<'a>(tables: Tables<'a, '_>, seat: Seat) -> Result<Seen<'a>, AllocError>
    requires room { HasRoomAt (tables_view tables.all.now) seat }
    ensures seat { IfOk result (λ f. f.seat ≡ seat) }
    ensures seen { IfOk result (IsSeen (tables_view tables.entry.all.now) tables.entry.missing) }
{
    match table_at(tables.all, seat.place) {
        Some(table) => seen_of(tables, seat, table),
        None => Ok(Seen {
            seat,
            sight: blank(tables.alloc, tables.missing),
            modes: Vec::new(tables.alloc),
        }),
    }
}

/// A part of a frame.
pub(crate) fn part_in(alloc: Global, seen: &Seen<'_>, part: &Part<'_>) -> Result<PartAt, AllocError>
    ensures { IfOk result (λ p. part_view p ≡ part_over (sight_view seen.now.sight)
        (all_asked_view seen.now.modes.items) (filled [] part.now)) }
{
    let expression = resolved(alloc, &seen.sight, &seen.modes, part.expression)?;
    Ok(PartAt {
        clock: switch_of(&seen.sight, part.clock),
        expression,
    })
}
