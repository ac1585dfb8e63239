//! What the calls of a declaration owe: the assumptions of their callees.

ghost use Rattle.std.specs.Prelude.{◌≡◌, ◌++◌, OnOk, map, slice_get};
ghost use Rattle.std.specs.List.{AllByRecursion};
ghost use Rattle.sys_frames.specs.Walked.{CallsHaveRoom, HasRoomWithin, IfThere, OfCall};
ghost use Rattle.sys_tables.specs.Numbers.{CallHasRoom, frame_base};
ghost use Rattle.sys_tables.specs.Views.{linked_view, table_view, tables_view};
ghost use Rattle.frame_conditions.specs.Conditioned.{owed};
ghost use Rattle.frame_conditions.specs.Views.{resolutions_view};
ghost use Rattle.frame_conditions.specs.Walked.{conditions_or_none, conditions_within, owed_by, owed_by_calls, owed_within};

use crate::bodies::push_owed;
use crate::frames::conditions_or_none;
use frame_sources::imports::Tables;
use lus_limits::Way;
use slot_values::Resolved;
use std::alloc::AllocError;
use sys_conditions::occurrences::Manner;
use sys_tables::numbers::frame_base;
use sys_tables::table::{Linked, Table};

/// The expressions, and behind them what a callee assumes, of which the frame runs so and has its slots from there on.
fn push_assumed(
    tables: Tables<'_, '_>,
    depth: usize,
    resolutions: &mut Vec<Resolved>,
    place: usize,
    way: Way,
    base: u32,
) -> Result<(), AllocError>
    requires below { IfThere (HasRoomWithin depth (tables_view tables.all.now))
        (slice_get (tables_view tables.all.now) place) way base }
    ensures { OnOk result (resolutions_view resolutions.new.items ≡ resolutions_view resolutions.old.items
        ++ owed base (conditions_or_none (conditions_within depth (tables_view tables.entry.all.now)
        tables.entry.missing) (slice_get (tables_view tables.entry.all.now) place) way base).assumes) }
{
    let conditions = conditions_or_none(tables, depth, place, way, base)?;
    push_owed(tables.alloc, resolutions, base, &conditions.assumes)
}

/// The expressions, and behind them what a call owes.
fn push_owed_by(
    tables: Tables<'_, '_>,
    depth: usize,
    resolutions: &mut Vec<Resolved>,
    from: u32,
    call: &Linked<'_>,
) -> Result<(), AllocError>
    requires room { CallHasRoom from (linked_view call.now) }
    requires below { OfCall (HasRoomWithin depth (tables_view tables.all.now)) (tables_view tables.all.now) from
        (linked_view call.now) }
    ensures { OnOk result (resolutions_view resolutions.new.items ≡ resolutions_view resolutions.old.items
        ++ owed_by (conditions_within depth (tables_view tables.entry.all.now) tables.entry.missing)
        (slice_get (tables_view tables.entry.all.now) (linked_view call.now).place)
        (frame_base from (linked_view call.now)) (linked_view call.now).site.manner) }
{
    let base = frame_base(from, call);
    match call.site.manner {
        Manner::Plain => push_assumed(tables, depth, resolutions, call.place, Way::Plain, base),
        Manner::While(_) => push_assumed(
            tables,
            depth,
            resolutions,
            call.place,
            Way::Condition,
            base,
        ),
        Manner::Import(_) => Ok(()),
    }
}

/// The expressions, and behind them what calls owe that stand from there on.
fn push_owed_by_calls(
    tables: Tables<'_, '_>,
    depth: usize,
    resolutions: &mut Vec<Resolved>,
    from: u32,
    calls: &[Linked<'_>],
) -> Result<(), AllocError>
    requires room { AllByRecursion (CallHasRoom from) (map linked_view calls.now) }
    requires below { AllByRecursion (OfCall (HasRoomWithin depth (tables_view tables.all.now))
        (tables_view tables.all.now) from) (map linked_view calls.now) }
    ensures { OnOk result (resolutions_view resolutions.new.items ≡ resolutions_view resolutions.old.items
        ++ owed_by_calls (conditions_within depth (tables_view tables.entry.all.now) tables.entry.missing)
        (tables_view tables.entry.all.now) from (map linked_view calls.now)) }
{
    for call in calls {
        push_owed_by(tables, depth, resolutions, from, call)?;
    }
    Ok(())
}

/// The expressions, and behind them what a frame's calls owe that stand from there on.
pub(crate) fn push_owed_within(
    tables: Tables<'_, '_>,
    depth: usize,
    resolutions: &mut Vec<Resolved>,
    table: &Table<'_>,
    from: u32,
) -> Result<(), AllocError>
    requires room { AllByRecursion (CallHasRoom from) (table_view table.now).calls }
    requires below { CallsHaveRoom depth (tables_view tables.all.now) from (table_view table.now).calls }
    ensures { OnOk result (resolutions_view resolutions.new.items ≡ resolutions_view resolutions.old.items
        ++ owed_within depth (tables_view tables.entry.all.now) tables.entry.missing (table_view table.now) from) }
{
    if depth == 0 {
        return Ok(());
    }
    push_owed_by_calls(tables, depth - 1, resolutions, from, &table.calls)
}
