//! The walk over the frames of a declaration: its own, and for each call that of the callee, in the order of their
//! variables.

ghost use Rattle.std.specs.Prelude.{◌≡◌, OnOk, map, option_map, slice_get};
ghost use Rattle.std.specs.List.{AllByRecursion};
ghost use Rattle.sys_contracts.specs.Views.{items_view};
ghost use Rattle.sys_parts.specs.Parts.{part_view};
ghost use Rattle.sys_tables.specs.Numbers.{CallHasRoom, HasRoom, frame_base, so_far_number};
ghost use Rattle.sys_tables.specs.Views.{linked_view, table_view, tables_view};
ghost use Rattle.sys_terms.specs.View.{term_view};
ghost use Rattle.sys_texts.specs.Views.{call_view, modes_view, sight_view};
ghost use Rattle.sys_frames.specs.Lists.{joined};
ghost use Rattle.sys_frames.specs.Views.{lists_view};
ghost use Rattle.sys_frames.specs.Walked.{CallsHaveRoom, HasRoomWithin, IfThere, OfCall, call_lists, call_lists_or_none, calls_lists, lists_below, lists_or_none, lists_seen, lists_within, so_far_of};

use crate::contracts::{Tables, items_seen, table_at};
use crate::held::{active_where, given_by, push_held_lists};
use crate::lists::Lists;
use crate::own::push_own;
use lus_limits::Way;
use std::alloc::AllocError;
use sys_contracts::items::Items;
use sys_parts::parts::Part;
use sys_tables::numbers::{behind_own, frame_base, keeps_so_far, so_far_number, way_of};
use sys_tables::sight::sight;
use sys_tables::table::{Linked, Table};
use sys_terms::Term;
use sys_texts::sight::{Call, Mode, Sight};

/// The number of the variable that says whether a frame's assumptions were true so far, where the frame has it.
fn so_far_of(table: &Table<'_>, way: Way, base: u32) -> Option<u32>
    requires room { HasRoom way (table_view table.now) base }
    ensures { result ≡ so_far_of (table_view table.now) way base }
{
    if keeps_so_far(table, way) {
        Some(so_far_number(table, base))
    } else {
        None
    }
}

/// The call that a frame's sight has at that place.
#[tactic(auto, using(sys_texts::proofs::Gotten::seen_at))]
fn call_at<'a, 's>(sight: &'s Sight<'a>, place: usize) -> Option<&'s Call<'a>>
    ensures { option_map (λ c. call_view c.now) result ≡ slice_get (sight_view sight.now).calls place }
{
    sight.calls.get(place)
}

/// The lists, and behind them what is said of a frame that is seen so and has these items, and of those of its calls,
/// with calls nested no deeper than `depth`.
#[cycle(walk)]
#[tactic(auto, using(crate::proofs::Steps::joined_twice))]
pub(crate) fn visit_seen<'a>(
    tables: Tables<'a, '_>,
    depth: usize,
    lists: &mut Lists,
    table: &Table<'a>,
    sight: &Sight<'_>,
    items: &Items<'_>,
    way: Way,
    base: u32,
    active: Term,
    given: &[Part],
) -> Result<(), AllocError>
    requires room { HasRoomWithin depth (tables_view tables.all.now) (table_view table.now) way base }
    ensures { OnOk result (lists_view lists.new ≡ joined (lists_view lists.old)
        (lists_seen depth (tables_view tables.entry.all.now) tables.entry.missing (table_view table.now)
        (sight_view sight.now) (items_view items.now) way base (term_view active) (map part_view given.now))) }
{
    let so_far = so_far_of(table, way, base);
    push_own(
        tables.alloc,
        lists,
        table,
        sight,
        items,
        so_far,
        active,
        given,
    )?;
    let from = behind_own(table, way, base);
    visit_below(
        tables,
        depth,
        lists,
        sight,
        &items.modes,
        from,
        &table.calls,
    )
}

/// The lists, and behind them what is said of the frames of calls that stand from there on, with others nested in
/// them no deeper than `depth`.
#[cycle(walk)]
fn visit_below<'a>(
    tables: Tables<'a, '_>,
    depth: usize,
    lists: &mut Lists,
    sight: &Sight<'_>,
    modes: &[Mode<'_>],
    from: u32,
    calls: &[Linked<'a>],
) -> Result<(), AllocError>
    requires room { AllByRecursion (CallHasRoom from) (map linked_view calls.now) }
    requires below { CallsHaveRoom depth (tables_view tables.all.now) from (map linked_view calls.now) }
    ensures { OnOk result (lists_view lists.new ≡ joined (lists_view lists.old)
        (lists_below depth (tables_view tables.entry.all.now) tables.entry.missing (sight_view sight.now)
        (modes_view modes.now) from (map linked_view calls.now))) }
{
    if depth == 0 {
        return Ok(());
    }
    visit_calls(tables, depth - 1, lists, sight, modes, from, calls)
}

/// The lists, and behind them what is said of the frames of calls.
#[cycle(walk)]
#[tactic(auto, using(crate::proofs::Steps::joined_twice))]
fn visit_calls<'a>(
    tables: Tables<'a, '_>,
    depth: usize,
    lists: &mut Lists,
    sight: &Sight<'_>,
    modes: &[Mode<'_>],
    from: u32,
    calls: &[Linked<'a>],
) -> Result<(), AllocError>
    requires room { AllByRecursion (CallHasRoom from) (map linked_view calls.now) }
    requires below { AllByRecursion (OfCall (HasRoomWithin depth (tables_view tables.all.now))
        (tables_view tables.all.now) from) (map linked_view calls.now) }
    ensures { OnOk result (lists_view lists.new ≡ joined (lists_view lists.old)
        (calls_lists (lists_within depth (tables_view tables.entry.all.now) tables.entry.missing)
        (tables_view tables.entry.all.now) (sight_view sight.now) (modes_view modes.now) from 0
        (map linked_view calls.now))) }
{
    for (place, call) in calls.iter().enumerate() {
        visit_placed(tables, depth, lists, sight, modes, from, call, place)?;
    }
    Ok(())
}

/// The lists, and behind them what is said of the frame of a call that the caller's sight has at that place.
#[cycle(walk)]
#[tactic(auto, using(crate::proofs::Steps::joined_none))]
fn visit_placed<'a>(
    tables: Tables<'a, '_>,
    depth: usize,
    lists: &mut Lists,
    sight: &Sight<'_>,
    modes: &[Mode<'_>],
    from: u32,
    call: &Linked<'a>,
    place: usize,
) -> Result<(), AllocError>
    requires room { CallHasRoom from (linked_view call.now) }
    requires below { OfCall (HasRoomWithin depth (tables_view tables.all.now)) (tables_view tables.all.now) from
        (linked_view call.now) }
    ensures { OnOk result (lists_view lists.new ≡ joined (lists_view lists.old)
        (call_lists_or_none (lists_within depth (tables_view tables.entry.all.now) tables.entry.missing)
        (tables_view tables.entry.all.now) (sight_view sight.now) (modes_view modes.now) from (linked_view call.now)
        (slice_get (sight_view sight.now).calls place))) }
{
    match call_at(sight, place) {
        Some(seen) => visit_call(tables, depth, lists, sight, modes, from, call, seen),
        None => Ok(()),
    }
}

/// The lists, and behind them what is held of a call, and what is said of its frame.
#[cycle(walk)]
#[tactic(auto, using(crate::proofs::Steps::joined_twice))]
fn visit_call<'a>(
    tables: Tables<'a, '_>,
    depth: usize,
    lists: &mut Lists,
    sight: &Sight<'_>,
    modes: &[Mode<'_>],
    from: u32,
    call: &Linked<'a>,
    seen: &Call<'_>,
) -> Result<(), AllocError>
    requires room { CallHasRoom from (linked_view call.now) }
    requires below { OfCall (HasRoomWithin depth (tables_view tables.all.now)) (tables_view tables.all.now) from
        (linked_view call.now) }
    ensures { OnOk result (lists_view lists.new ≡ joined (lists_view lists.old)
        (call_lists (lists_within depth (tables_view tables.entry.all.now) tables.entry.missing)
        (tables_view tables.entry.all.now) (sight_view sight.now) (modes_view modes.now) from (linked_view call.now)
        (call_view seen.now))) }
{
    let alloc = tables.alloc;
    push_held_lists(alloc, lists, &call.defaults, seen, call.site.manner)?;
    let active = active_where(alloc, sight, modes, call.site, seen)?;
    let given = given_by(alloc, sight, modes, call.site)?;
    let base = frame_base(from, call);
    let way = way_of(call.site.manner);
    visit_or_none(tables, depth, lists, call.place, way, base, active, &given)
}

/// The lists, and behind them what is said of a frame of the declaration of that place; nothing where there is none.
#[cycle(walk)]
#[tactic(auto, using(crate::proofs::Steps::joined_none))]
fn visit_or_none<'a>(
    tables: Tables<'a, '_>,
    depth: usize,
    lists: &mut Lists,
    place: usize,
    way: Way,
    base: u32,
    active: Term,
    given: &[Part],
) -> Result<(), AllocError>
    requires below { IfThere (HasRoomWithin depth (tables_view tables.all.now))
        (slice_get (tables_view tables.all.now) place) way base }
    ensures { OnOk result (lists_view lists.new ≡ joined (lists_view lists.old)
        (lists_or_none (lists_within depth (tables_view tables.entry.all.now) tables.entry.missing)
        (slice_get (tables_view tables.entry.all.now) place) way base (term_view active)
        (map part_view given.now))) }
{
    match table_at(tables.all, place) {
        Some(table) => visit_frame(tables, depth, lists, table, way, base, active, given),
        None => Ok(()),
    }
}

/// The lists, and behind them what is said of a frame of a declaration that runs so and has its variables from
/// there on, and of those of its calls, with calls nested no deeper than `depth`.
#[cycle(walk)]
fn visit_frame<'a>(
    tables: Tables<'a, '_>,
    depth: usize,
    lists: &mut Lists,
    table: &Table<'a>,
    way: Way,
    base: u32,
    active: Term,
    given: &[Part],
) -> Result<(), AllocError>
    requires room { HasRoomWithin depth (tables_view tables.all.now) (table_view table.now) way base }
    ensures { OnOk result (lists_view lists.new ≡ joined (lists_view lists.old)
        (lists_within depth (tables_view tables.entry.all.now) tables.entry.missing (table_view table.now) way base
        (term_view active) (map part_view given.now))) }
{
    let sight = sight(tables.alloc, table, way, base, tables.missing)?;
    let items = items_seen(tables, depth, table, &sight, behind_own(table, way, base))?;
    visit_seen(
        tables, depth, lists, table, &sight, &items, way, base, active, given,
    )
}
