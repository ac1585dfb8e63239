//! What the frames of a declaration assert: its own, and for each call that of the callee, in the order of their slots.

ghost use Rattle.std.specs.Prelude.{◌≡◌, ◌++◌, OnOk, map, slice_get};
ghost use Rattle.std.specs.List.{AllByRecursion};
ghost use Rattle.sys_frames.specs.Walked.{CallsHaveRoom, HasRoomWithin, IfThere, OfCall};
ghost use Rattle.sys_tables.specs.Numbers.{CallHasRoom};
ghost use Rattle.sys_tables.specs.Views.{linked_view, table_view, tables_view};
ghost use Rattle.sys_texts.specs.Views.{sight_view};
ghost use Rattle.frame_sources.specs.Views.{all_asked_view};
ghost use Rattle.frame_conditions.specs.Conditioned.{asserts_by};
ghost use Rattle.frame_conditions.specs.Views.{resolutions_view};
ghost use Rattle.frame_conditions.specs.Walked.{asserts_below, asserts_or_none, asserts_within, call_asserts, calls_asserts, own_asserts};

use crate::bodies::push_assertions;
use frame_sources::imports::{Tables, modes_seen, table_at};
use frame_sources::modes::Asked;
use lus_limits::Way;
use slot_values::Resolved;
use std::alloc::{AllocError, Global};
use sys_tables::numbers::{behind_own, frame_base, way_of};
use sys_tables::sight::sight;
use sys_tables::table::{Linked, Table};
use sys_texts::sight::Sight;

/// The expressions, and behind them what a frame asserts that is seen so, where these modes are known.
fn push_seen(
    alloc: Global,
    resolutions: &mut Vec<Resolved>,
    table: &Table<'_>,
    sight: &Sight<'_>,
    modes: &[Asked<'_>],
) -> Result<(), AllocError>
    ensures { OnOk result (resolutions_view resolutions.new.items ≡ resolutions_view resolutions.old.items
        ++ asserts_by (sight_view sight.now) (all_asked_view modes.now) (table_view table.now).component.body) }
{
    push_assertions(alloc, resolutions, sight, modes, table.owner.body())
}

/// The expressions, and behind them what a frame asserts of a declaration that runs so and has its slots from there on.
fn push_own(
    tables: Tables<'_, '_>,
    depth: usize,
    resolutions: &mut Vec<Resolved>,
    table: &Table<'_>,
    way: Way,
    base: u32,
) -> Result<(), AllocError>
    requires room { HasRoomWithin depth (tables_view tables.all.now) (table_view table.now) way base }
    ensures { OnOk result (resolutions_view resolutions.new.items ≡ resolutions_view resolutions.old.items
        ++ own_asserts depth (tables_view tables.entry.all.now) tables.entry.missing (table_view table.now) way base) }
{
    let sight = sight(tables.alloc, table, way, base, tables.missing)?;
    let modes = modes_seen(tables, depth, table, &sight, behind_own(table, way, base))?;
    push_seen(tables.alloc, resolutions, table, &sight, &modes)
}

/// The expressions, and behind them what the frames assert of calls that stand from there on, with others nested in
/// them no deeper than `depth`.
#[cycle(walk)]
fn visit_below(
    tables: Tables<'_, '_>,
    depth: usize,
    resolutions: &mut Vec<Resolved>,
    from: u32,
    calls: &[Linked<'_>],
) -> Result<(), AllocError>
    requires room { AllByRecursion (CallHasRoom from) (map linked_view calls.now) }
    requires below { CallsHaveRoom depth (tables_view tables.all.now) from (map linked_view calls.now) }
    ensures { OnOk result (resolutions_view resolutions.new.items ≡ resolutions_view resolutions.old.items
        ++ asserts_below depth (tables_view tables.entry.all.now) tables.entry.missing from
        (map linked_view calls.now)) }
{
    if depth == 0 {
        return Ok(());
    }
    visit_calls(tables, depth - 1, resolutions, from, calls)
}

/// The expressions, and behind them what the frames of calls assert.
#[cycle(walk)]
fn visit_calls(
    tables: Tables<'_, '_>,
    depth: usize,
    resolutions: &mut Vec<Resolved>,
    from: u32,
    calls: &[Linked<'_>],
) -> Result<(), AllocError>
    requires room { AllByRecursion (CallHasRoom from) (map linked_view calls.now) }
    requires below { AllByRecursion (OfCall (HasRoomWithin depth (tables_view tables.all.now))
        (tables_view tables.all.now) from) (map linked_view calls.now) }
    ensures { OnOk result (resolutions_view resolutions.new.items ≡ resolutions_view resolutions.old.items
        ++ calls_asserts (asserts_within depth (tables_view tables.entry.all.now) tables.entry.missing)
        (tables_view tables.entry.all.now) from (map linked_view calls.now)) }
{
    for call in calls {
        visit_call(tables, depth, resolutions, from, call)?;
    }
    Ok(())
}

/// The expressions, and behind them what the frame of a call asserts.
#[cycle(walk)]
fn visit_call(
    tables: Tables<'_, '_>,
    depth: usize,
    resolutions: &mut Vec<Resolved>,
    from: u32,
    call: &Linked<'_>,
) -> Result<(), AllocError>
    requires room { CallHasRoom from (linked_view call.now) }
    requires below { OfCall (HasRoomWithin depth (tables_view tables.all.now)) (tables_view tables.all.now) from
        (linked_view call.now) }
    ensures { OnOk result (resolutions_view resolutions.new.items ≡ resolutions_view resolutions.old.items
        ++ call_asserts (asserts_within depth (tables_view tables.entry.all.now) tables.entry.missing)
        (tables_view tables.entry.all.now) from (linked_view call.now)) }
{
    let base = frame_base(from, call);
    let way = way_of(call.site.manner);
    visit_or_none(tables, depth, resolutions, call.place, way, base)
}

/// The expressions, and behind them what a frame asserts of the declaration of that place; nothing where there is none.
#[cycle(walk)]
fn visit_or_none(
    tables: Tables<'_, '_>,
    depth: usize,
    resolutions: &mut Vec<Resolved>,
    place: usize,
    way: Way,
    base: u32,
) -> Result<(), AllocError>
    requires below { IfThere (HasRoomWithin depth (tables_view tables.all.now))
        (slice_get (tables_view tables.all.now) place) way base }
    ensures { OnOk result (resolutions_view resolutions.new.items ≡ resolutions_view resolutions.old.items
        ++ asserts_or_none (asserts_within depth (tables_view tables.entry.all.now) tables.entry.missing)
        (slice_get (tables_view tables.entry.all.now) place) way base) }
{
    match table_at(tables.all, place) {
        Some(table) => visit_frame(tables, depth, resolutions, table, way, base),
        None => Ok(()),
    }
}

/// The expressions, and behind them what a frame asserts, with those of its calls, nested no deeper than `depth`, of a
/// declaration that runs so and has its slots from there on.
#[cycle(walk)]
pub(crate) fn visit_frame(
    tables: Tables<'_, '_>,
    depth: usize,
    resolutions: &mut Vec<Resolved>,
    table: &Table<'_>,
    way: Way,
    base: u32,
) -> Result<(), AllocError>
    requires room { HasRoomWithin depth (tables_view tables.all.now) (table_view table.now) way base }
    ensures { OnOk result (resolutions_view resolutions.new.items ≡ resolutions_view resolutions.old.items
        ++ asserts_within depth (tables_view tables.entry.all.now) tables.entry.missing (table_view table.now) way
        base) }
{
    push_own(tables, depth, resolutions, table, way, base)?;
    let from = behind_own(table, way, base);
    visit_below(tables, depth, resolutions, from, &table.calls)
}
