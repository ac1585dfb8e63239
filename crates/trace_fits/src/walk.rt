//! The walk over the frames of a node: its own, and for each call that of the callee.

ghost use Rattle.std.specs.Prelude.{◌≡◌, ◌<◌, ◌^◌, ◌++◌, ◌∷◌, [], IfOk, OnOk, map, option_map, slice_get};
ghost use Rattle.std.specs.List.{AllByRecursion};
ghost use Rattle.sys_tables.specs.Numbers.{CallHasRoom, HasRoom, first_memory, sight_at, so_far_number};
ghost use Rattle.sys_tables.specs.Views.{linked_view, table_view, tables_view};
ghost use Rattle.sys_frames.specs.Walked.{HasRoomWithin, IfThere, OfCall};
ghost use Rattle.trace_fits.specs.Views.{slotted_view};
ghost use Rattle.trace_fits.specs.Walked.{call_listed, calls_listed, listed_or_none, listed_within, own_listed};

use crate::permitted::Listable;
use crate::streams::{push_free, push_memories};
use lus_limits::Way;
use std::alloc::{AllocError, Global};
use sys_tables::numbers::{behind_own, frame_base, way_of};
use sys_tables::sight::sight;
use sys_tables::table::{Linked, Table};

/// The tables of a program's declarations, the number that stands for what isn't there, and how many instants a
/// trace has.
#[derive(Clone, Copy)]
pub(crate) struct Tables<'a, 's> {
    pub(crate) alloc: Global,
    pub(crate) all: &'s [Table<'a>],
    pub(crate) missing: u32,
    pub(crate) instants: u32,
}

/// The table of that place.
#[tactic(auto, using(sys_texts::proofs::Gotten::seen_at))]
pub(crate) fn table_at<'a, 's>(all: &'s [Table<'a>], place: usize) -> Option<&'s Table<'a>>
    ensures { option_map (λ t. table_view t.now) result ≡ slice_get (tables_view all.now) place }
{
    all.get(place)
}

/// The way to a call's frame.
fn way_to(alloc: Global, path: &[u32], number: u32) -> Result<Vec<u32>, AllocError>
    ensures { IfOk result (λ v. v.items ≡ path.now ++ number ∷ []) }
{
    let mut way = path.to_vec(alloc)?;
    way.push(number)?;
    Ok(way)
}

/// The number of the first memory of a frame.
fn first_memory(table: &Table<'_>, base: u32) -> u32
    requires { so_far_number (table_view table.now) base < 2 ^ 32 }
    ensures { result ≡ first_memory (table_view table.now) base }
{
    base + 1 + table.streams.len() as u32
}

/// The list, and behind it what may be listed of a frame itself, which runs so and has its variables from `base` on.
fn push_own<'a>(
    tables: Tables<'a, '_>,
    list: &mut Vec<Listable<'a>>,
    way: Way,
    base: u32,
    path: &[u32],
    table: &Table<'a>,
) -> Result<(), AllocError>
    requires { HasRoom way (table_view table.now) base }
    ensures { OnOk result (map slotted_view list.new.items ≡ map slotted_view list.old.items
        ++ own_listed (sight_at (table_view table.now) way base tables.entry.missing) tables.entry.instants way base
        path.now (table_view table.now)) }
{
    let sight = sight(tables.alloc, table, way, base, tables.missing)?;
    let alloc = tables.alloc;
    push_free(
        list,
        alloc,
        path,
        tables.instants,
        way,
        base + 1,
        &table.streams,
    )?;
    let first = first_memory(table, base);
    push_memories(list, alloc, path, &sight, first, &table.memories)
}

/// The list, and behind it what may be listed of a frame of a declaration that runs so and has its variables from
/// `base` on, and of those of its calls, with calls nested no deeper than `depth`.
#[cycle(walk)]
pub(crate) fn visit_frame<'a>(
    tables: Tables<'a, '_>,
    depth: usize,
    list: &mut Vec<Listable<'a>>,
    way: Way,
    base: u32,
    path: &[u32],
    table: &Table<'a>,
) -> Result<(), AllocError>
    requires { HasRoomWithin depth (tables_view tables.all.now) (table_view table.now) way base }
    ensures { OnOk result (map slotted_view list.new.items ≡ map slotted_view list.old.items
        ++ listed_within (tables_view tables.entry.all.now) tables.entry.missing tables.entry.instants depth way base
        path.now (table_view table.now)) }
{
    push_own(tables, list, way, base, path, table)?;
    if depth == 0 {
        return Ok(());
    }
    let from = behind_own(table, way, base);
    visit_calls(tables, depth - 1, list, from, path, &table.calls)
}

/// The list, and behind it what may be listed of the frames of calls that stand from there on.
#[cycle(walk)]
fn visit_calls<'a>(
    tables: Tables<'a, '_>,
    depth: usize,
    list: &mut Vec<Listable<'a>>,
    from: u32,
    path: &[u32],
    calls: &[Linked<'a>],
) -> Result<(), AllocError>
    requires room { AllByRecursion (CallHasRoom from) (map linked_view calls.now) }
    requires below { AllByRecursion (OfCall (HasRoomWithin depth (tables_view tables.all.now))
        (tables_view tables.all.now) from) (map linked_view calls.now) }
    ensures { OnOk result (map slotted_view list.new.items ≡ map slotted_view list.old.items
        ++ calls_listed (listed_within (tables_view tables.entry.all.now) tables.entry.missing tables.entry.instants
        depth)
        (tables_view tables.entry.all.now) from path.now (map linked_view calls.now)) }
{
    for call in calls {
        visit_call(tables, depth, list, from, path, call)?;
    }
    Ok(())
}

/// The list, and behind it what may be listed of the frame of a call.
#[cycle(walk)]
fn visit_call<'a>(
    tables: Tables<'a, '_>,
    depth: usize,
    list: &mut Vec<Listable<'a>>,
    from: u32,
    path: &[u32],
    call: &Linked<'a>,
) -> Result<(), AllocError>
    requires room { CallHasRoom from (linked_view call.now) }
    requires below { OfCall (HasRoomWithin depth (tables_view tables.all.now)) (tables_view tables.all.now) from
        (linked_view call.now) }
    ensures { OnOk result (map slotted_view list.new.items ≡ map slotted_view list.old.items
        ++ call_listed (listed_within (tables_view tables.entry.all.now) tables.entry.missing tables.entry.instants
        depth)
        (tables_view tables.entry.all.now) from path.now (linked_view call.now)) }
{
    let base = frame_base(from, call);
    let way = way_of(call.site.manner);
    let path = way_to(tables.alloc, path, call.site.number)?;
    visit_or_none(tables, depth, list, way, base, &path, call.place)
}

/// The list, and behind it what may be listed of a frame of the declaration of that place; nothing where there is none.
#[cycle(walk)]
fn visit_or_none<'a>(
    tables: Tables<'a, '_>,
    depth: usize,
    list: &mut Vec<Listable<'a>>,
    way: Way,
    base: u32,
    path: &[u32],
    place: usize,
) -> Result<(), AllocError>
    requires { IfThere (HasRoomWithin depth (tables_view tables.all.now))
        (slice_get (tables_view tables.all.now) place) way base }
    ensures { OnOk result (map slotted_view list.new.items ≡ map slotted_view list.old.items
        ++ listed_or_none (listed_within (tables_view tables.entry.all.now) tables.entry.missing
        tables.entry.instants depth)
        way base path.now (slice_get (tables_view tables.entry.all.now) place)) }
{
    match table_at(tables.all, place) {
        Some(table) => visit_frame(tables, depth, list, way, base, path, table),
        None => Ok(()),
    }
}
