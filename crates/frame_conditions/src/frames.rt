//! The conditions of the contracts of frames.

ghost use Rattle.std.specs.Prelude.{◌≡◌, IfOk, map, slice_get};
ghost use Rattle.std.specs.List.{AllByRecursion};
ghost use Rattle.sys_frames.specs.Walked.{CallsHaveRoom, HasRoomWithin, IfThere, OfCall};
ghost use Rattle.sys_tables.specs.Numbers.{CallHasRoom, frame_base};
ghost use Rattle.sys_tables.specs.Views.{linked_view, table_view, tables_view};
ghost use Rattle.sys_texts.specs.Views.{sight_view};
ghost use Rattle.frame_conditions.specs.Views.{all_conditions_view, conditions_view};
ghost use Rattle.frame_conditions.specs.Walked.{called_each, called_one, conditions_below, conditions_or_none, conditions_seen, conditions_within};

use crate::conditions::{Conditions, no_conditions};
use crate::statements::contract_conditions;
use frame_sources::imports::{Tables, table_at};
use lus_limits::Way;
use std::alloc::AllocError;
use sys_conditions::occurrences::Manner;
use sys_tables::numbers::{behind_own, frame_base};
use sys_tables::sight::sight;
use sys_tables::table::{Linked, Table};
use sys_texts::sight::Sight;

/// The conditions of a frame that is seen so, whose calls stand from there on, with calls nested no deeper than
/// `depth`.
#[cycle(conditions)]
fn conditions_seen<'a>(
    tables: Tables<'a, '_>,
    depth: usize,
    table: &Table<'a>,
    sight: &Sight<'a>,
    from: u32,
) -> Result<Conditions<'a>, AllocError>
    requires room { AllByRecursion (CallHasRoom from) (table_view table.now).calls }
    requires below { CallsHaveRoom depth (tables_view tables.all.now) from (table_view table.now).calls }
    ensures { IfOk result (λ r. conditions_view r ≡ conditions_seen depth (tables_view tables.entry.all.now)
        tables.entry.missing (table_view table.now) (sight_view sight.now) from) }
{
    let called = conditions_below(tables, depth, from, &table.calls)?;
    contract_conditions(tables.alloc, sight, &called, table.owner.contract())
}

/// The conditions of calls that stand from there on, with others nested in them no deeper than `depth`; at 0 there are
/// none.
#[cycle(conditions)]
fn conditions_below<'a>(
    tables: Tables<'a, '_>,
    depth: usize,
    from: u32,
    calls: &[Linked<'a>],
) -> Result<Vec<Conditions<'a>>, AllocError>
    requires room { AllByRecursion (CallHasRoom from) (map linked_view calls.now) }
    requires below { CallsHaveRoom depth (tables_view tables.all.now) from (map linked_view calls.now) }
    ensures { IfOk result (λ v. all_conditions_view v.items ≡ conditions_below depth (tables_view tables.entry.all.now)
        tables.entry.missing from (map linked_view calls.now)) }
{
    if depth == 0 {
        return Ok(Vec::new(tables.alloc));
    }
    called_each(tables, depth - 1, from, calls)
}

/// The conditions of calls.
#[cycle(conditions)]
fn called_each<'a>(
    tables: Tables<'a, '_>,
    depth: usize,
    from: u32,
    calls: &[Linked<'a>],
) -> Result<Vec<Conditions<'a>>, AllocError>
    requires room { AllByRecursion (CallHasRoom from) (map linked_view calls.now) }
    requires below { AllByRecursion (OfCall (HasRoomWithin depth (tables_view tables.all.now))
        (tables_view tables.all.now) from) (map linked_view calls.now) }
    ensures { IfOk result (λ v. all_conditions_view v.items ≡ called_each
        (conditions_within depth (tables_view tables.entry.all.now) tables.entry.missing)
        (tables_view tables.entry.all.now) from (map linked_view calls.now)) }
{
    let mut all = Vec::new(tables.alloc);
    for call in calls {
        let conditions = called_one(tables, depth, from, call)?;
        all.push(conditions)?;
    }
    Ok(all)
}

/// The conditions of a call: of an import those of its frame.
#[cycle(conditions)]
fn called_one<'a>(
    tables: Tables<'a, '_>,
    depth: usize,
    from: u32,
    call: &Linked<'a>,
) -> Result<Conditions<'a>, AllocError>
    requires room { CallHasRoom from (linked_view call.now) }
    requires below { OfCall (HasRoomWithin depth (tables_view tables.all.now)) (tables_view tables.all.now) from
        (linked_view call.now) }
    ensures { IfOk result (λ r. conditions_view r ≡ called_one
        (conditions_within depth (tables_view tables.entry.all.now) tables.entry.missing)
        (tables_view tables.entry.all.now) (linked_view call.now).place (frame_base from (linked_view call.now))
        (linked_view call.now).site.manner) }
{
    match call.site.manner {
        Manner::Import(_) => {
            let base = frame_base(from, call);
            conditions_or_none(tables, depth, call.place, Way::Import, base)
        }
        Manner::Plain | Manner::While(_) => Ok(no_conditions(tables.alloc)),
    }
}

/// The conditions of a frame of the declaration of that place; none where there is none.
#[cycle(conditions)]
pub(crate) fn conditions_or_none<'a>(
    tables: Tables<'a, '_>,
    depth: usize,
    place: usize,
    way: Way,
    base: u32,
) -> Result<Conditions<'a>, AllocError>
    requires below { IfThere (HasRoomWithin depth (tables_view tables.all.now))
        (slice_get (tables_view tables.all.now) place) way base }
    ensures { IfOk result (λ r. conditions_view r ≡ conditions_or_none
        (conditions_within depth (tables_view tables.entry.all.now) tables.entry.missing)
        (slice_get (tables_view tables.entry.all.now) place) way base) }
{
    match table_at(tables.all, place) {
        Some(table) => conditions_within(tables, depth, table, way, base),
        None => Ok(no_conditions(tables.alloc)),
    }
}

/// The conditions of a frame of a declaration that runs so and has its slots from there on, with calls nested no deeper
/// than `depth`.
#[cycle(conditions)]
pub(crate) fn conditions_within<'a>(
    tables: Tables<'a, '_>,
    depth: usize,
    table: &Table<'a>,
    way: Way,
    base: u32,
) -> Result<Conditions<'a>, AllocError>
    requires room { HasRoomWithin depth (tables_view tables.all.now) (table_view table.now) way base }
    ensures { IfOk result (λ r. conditions_view r ≡ conditions_within depth (tables_view tables.entry.all.now)
        tables.entry.missing (table_view table.now) way base) }
{
    let sight = sight(tables.alloc, table, way, base, tables.missing)?;
    conditions_seen(tables, depth, table, &sight, behind_own(table, way, base))
}
