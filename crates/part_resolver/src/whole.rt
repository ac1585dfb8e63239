//! The parts of an instant.

ghost use Rattle.std.specs.Prelude.{◌≡◌, ◌<◌, Contains, IfOk, map};
ghost use Rattle.evaluation_parts.specs.PartViews.{parts_view};
ghost use Rattle.lus_meaning.specs.ClockFaults.{components};
ghost use Rattle.lus_meaning.specs.Program.{instance_of};
ghost use Rattle.lus_meaning.specs.Refusals.{IsChecked};
ghost use Rattle.lus_meaning.specs.Slots.{width};
ghost use Rattle.lus_streams.specs.Owner.{owner_view};
ghost use Rattle.lus_tree.specs.View.{program_view};
ghost use Rattle.slot_replay.specs.Parts.{part_view};
ghost use Rattle.sys_tables.specs.Views.{tables_view};
ghost use Rattle.part_resolver.specs.SlotParts.{over_slots, parts_at};
ghost use Rattle.part_resolver.specs.Seats.{HasRoomAt};

use crate::kept::{none_kept, part_at};
use crate::seats::{Seat, seat_on};
use evaluation_parts::part::Part;
use frame_sources::imports::Tables;
use lus_limits::{Way, system_sizes};
use lus_streams::owner::Owner;
use lus_tree::Program;
use sight_laws::laws::{
    callees_are_there, constants_are_known, frames_have_room, sights_are_sights,
};
use slot_replay::PartAt;
use std::alloc::{AllocError, Global};
use steady_laws::laws::{constants_are_kept, texts_are_steady};
use sys_frames::{missing_at, place_named};
use sys_tables::tables::tables;

/// The parts of the frames at the end of their ways from there on.
#[tactic(auto, using(crate::proofs::Rooms::room_there, crate::proofs::Keeps::kept_none))]
fn parts_from(
    tables: Tables<'_, '_>,
    root: Seat,
    parts: &[Part<'_>],
) -> Result<Vec<PartAt>, AllocError>
    requires room { HasRoomAt (tables_view tables.all.now) root }
    ensures { IfOk result (λ v. map part_view v.items ≡ parts_at (tables_view tables.entry.all.now)
        tables.entry.missing root (parts_view parts.now)) }
{
    let mut kept = none_kept(tables.alloc, tables.missing)?;
    let mut resolved = Vec::with_capacity(tables.alloc, parts.len())?;
    for part in parts {
        let seat = seat_on(tables, root, &part.way);
        resolved.push(part_at(tables, &mut kept, seat, part)?)?;
    }
    Ok(resolved)
}

/// The parts of an instant of a declaration of a checked program as expressions over its slots: of each the
/// resolution of its expression in the frame at the end of its way of calls, and the slot that tells its clock there.
///
/// # Errors
///
/// Only want of memory.
pub fn resolved(
    alloc: Global,
    program: &Program,
    node: Owner<'_>,
    parts: &[Part<'_>],
) -> Result<Vec<PartAt>, AllocError>
    requires checked { IsChecked (program_view program.now) }
    requires declared { Contains (components (program_view program.now)) (owner_view node) }
    requires small { width (instance_of (program_view program.now) (owner_view node)) < 20001 }
    ensures exact { IfOk result (λ v. map part_view v.items
        ≡ map (over_slots (instance_of (program_view program.now) (owner_view node.entry))) (parts_view parts.now)) }
{
    texts_are_steady();
    constants_are_kept();
    callees_are_there();
    frames_have_room();
    constants_are_known();
    sights_are_sights();
    let all = tables(alloc, program)?;
    let sizes = system_sizes(alloc, program)?;
    let depth = program.decls.len();
    let place = place_named(&all, node.name());
    let missing = missing_at(&sizes, place);
    let tables = Tables {
        alloc,
        all: &all,
        missing,
    };
    let root = Seat {
        depth,
        place,
        way: Way::Plain,
        base: 0,
    };
    parts_from(tables, root, parts)
}
