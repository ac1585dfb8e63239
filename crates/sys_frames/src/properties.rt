//! The properties of a declaration.

ghost use Rattle.std.specs.Prelude.{◌≡◌, ◌++◌, IfOk, OnOk, map, slice_get};
ghost use Rattle.std.specs.List.{AllByRecursion};
ghost use Rattle.sys_contracts.specs.Views.{items_view};
ghost use Rattle.sys_conditions.specs.Conditioned.{owed};
ghost use Rattle.sys_conditions.specs.Views.{manner_view};
ghost use Rattle.sys_tables.specs.Numbers.{CallHasRoom, frame_base};
ghost use Rattle.sys_tables.specs.Views.{linked_view, table_view, tables_view};
ghost use Rattle.sys_terms.specs.View.{terms_view};
ghost use Rattle.sys_texts.specs.Views.{sight_view};
ghost use Rattle.sys_frames.specs.Walked.{CallsHaveRoom, HasRoomWithin, IfThere, OfCall, items_or_none, items_within, owed_by, owed_by_calls, owed_within, properties_over};

use crate::contracts::{Tables, items_or_none};
use lus_limits::Way;
use std::alloc::{AllocError, Global};
use sys_conditions::assertions::{push_owed, push_properties};
use sys_conditions::occurrences::Manner;
use sys_contracts::items::Items;
use sys_contracts::promises::push_promises;
use sys_tables::numbers::frame_base;
use sys_tables::table::{Linked, Table};
use sys_terms::Term;
use sys_texts::sight::Sight;

/// The formulas, and behind them what a callee assumes, of which the frame runs so and has its variables from there on.
fn push_assumed(
    tables: Tables<'_, '_>,
    depth: usize,
    formulas: &mut Vec<Term>,
    place: usize,
    way: Way,
    base: u32,
) -> Result<(), AllocError>
    requires below { IfThere (HasRoomWithin depth (tables_view tables.all.now))
        (slice_get (tables_view tables.all.now) place) way base }
    ensures { OnOk result (terms_view formulas.new.items ≡ terms_view formulas.old.items
        ++ owed base (items_or_none (items_within depth (tables_view tables.entry.all.now) tables.entry.missing)
        (slice_get (tables_view tables.entry.all.now) place) way base).assumes) }
{
    let items = items_or_none(tables, depth, place, way, base)?;
    push_owed(tables.alloc, formulas, base, &items.assumes)
}

/// The formulas, and behind them what a call owes.
fn push_owed_by(
    tables: Tables<'_, '_>,
    depth: usize,
    formulas: &mut Vec<Term>,
    from: u32,
    call: &Linked<'_>,
) -> Result<(), AllocError>
    requires room { CallHasRoom from (linked_view call.now) }
    requires below { OfCall (HasRoomWithin depth (tables_view tables.all.now)) (tables_view tables.all.now) from
        (linked_view call.now) }
    ensures { OnOk result (terms_view formulas.new.items ≡ terms_view formulas.old.items
        ++ owed_by (items_within depth (tables_view tables.entry.all.now) tables.entry.missing)
        (slice_get (tables_view tables.entry.all.now) (linked_view call.now).place)
        (frame_base from (linked_view call.now)) (frame_base from (linked_view call.now))
        (linked_view call.now).site.manner) }
{
    let base = frame_base(from, call);
    match call.site.manner {
        Manner::Plain => push_assumed(tables, depth, formulas, call.place, Way::Plain, base),
        Manner::While(_) => push_assumed(tables, depth, formulas, call.place, Way::Condition, base),
        Manner::Import(_) => Ok(()),
    }
}

/// The formulas, and behind them what calls owe that stand from there on.
fn push_owed_by_calls(
    tables: Tables<'_, '_>,
    depth: usize,
    formulas: &mut Vec<Term>,
    from: u32,
    calls: &[Linked<'_>],
) -> Result<(), AllocError>
    requires room { AllByRecursion (CallHasRoom from) (map linked_view calls.now) }
    requires below { AllByRecursion (OfCall (HasRoomWithin depth (tables_view tables.all.now))
        (tables_view tables.all.now) from) (map linked_view calls.now) }
    ensures { OnOk result (terms_view formulas.new.items ≡ terms_view formulas.old.items
        ++ owed_by_calls (items_within depth (tables_view tables.entry.all.now) tables.entry.missing)
        (tables_view tables.entry.all.now) from (map linked_view calls.now)) }
{
    for call in calls {
        push_owed_by(tables, depth, formulas, from, call)?;
    }
    Ok(())
}

/// The formulas, and behind them what a frame's calls owe that stand from there on.
fn push_owed_within(
    tables: Tables<'_, '_>,
    depth: usize,
    formulas: &mut Vec<Term>,
    table: &Table<'_>,
    from: u32,
) -> Result<(), AllocError>
    requires room { AllByRecursion (CallHasRoom from) (table_view table.now).calls }
    requires below { CallsHaveRoom depth (tables_view tables.all.now) from (table_view table.now).calls }
    ensures { OnOk result (terms_view formulas.new.items ≡ terms_view formulas.old.items
        ++ owed_within depth (tables_view tables.entry.all.now) tables.entry.missing (table_view table.now) from) }
{
    if depth == 0 {
        return Ok(());
    }
    push_owed_by_calls(tables, depth - 1, formulas, from, &table.calls)
}

/// The properties of a declaration, whose frame is seen so and has these items, and whose calls stand from there on.
pub(crate) fn properties_of(
    tables: Tables<'_, '_>,
    depth: usize,
    table: &Table<'_>,
    sight: &Sight<'_>,
    items: &Items<'_>,
    from: u32,
) -> Result<Vec<Term>, AllocError>
    requires room { AllByRecursion (CallHasRoom from) (table_view table.now).calls }
    requires below { CallsHaveRoom depth (tables_view tables.all.now) from (table_view table.now).calls }
    ensures { IfOk result (λ v. terms_view v.items ≡ properties_over (sight_view sight.now) (items_view items.now)
        (table_view table.now) (owed_within depth (tables_view tables.entry.all.now) tables.entry.missing
        (table_view table.now) from)) }
{
    let mut formulas = Vec::new(tables.alloc);
    push_properties(
        tables.alloc,
        &mut formulas,
        sight,
        &items.modes,
        table.owner.body(),
    )?;
    push_promises(tables.alloc, &mut formulas, items)?;
    push_owed_within(tables, depth, &mut formulas, table, from)?;
    Ok(formulas)
}
