//! The conditions of a declaration.

ghost use Rattle.std.specs.Prelude.{◌≡◌, ◌<◌, Contains, IfOk, map, slice_get};
ghost use Rattle.lus_limits.specs.declared.calls.Way.TheVariants.{Plain};
ghost use Rattle.lus_meaning.specs.ClockFaults.{components};
ghost use Rattle.lus_meaning.specs.Program.{instance_of};
ghost use Rattle.lus_meaning.specs.Refusals.{IsChecked};
ghost use Rattle.lus_meaning.specs.Slots.{width};
ghost use Rattle.lus_streams.specs.Owner.{owner_view};
ghost use Rattle.lus_tree.specs.View.{program_view};
ghost use Rattle.slot_values.specs.Resolution.{resolved_view};
ghost use Rattle.condition_laws.specs.Conditions.{legal_resolutions, property_resolutions};
ghost use Rattle.sys_frames.specs.Walked.{HasRoomWithin, IfThere};
ghost use Rattle.sys_tables.specs.Views.{table_view, tables_view};
ghost use Rattle.sys_texts.specs.Views.{sight_view};
ghost use Rattle.frame_sources.specs.Views.{all_asked_view};
ghost use Rattle.frame_conditions.specs.Views.{conditions_view, resolutions_view};
ghost use Rattle.frame_conditions.specs.Walked.{legal_or_none, legal_within, owed_within, properties_or_none, properties_over, properties_within};
ghost use Rattle.sys_tables.specs.Numbers.{behind_own};

use crate::bodies::push_properties;
use crate::conditions::{Conditions, push_copies};
use crate::frames::conditions_within;
use crate::owed::push_owed_within;
use crate::promises::push_promises;
use crate::walk::visit_frame;
use frame_sources::imports::{Tables, modes_seen, table_at};
use frame_sources::modes::Asked;
use lus_limits::{Way, system_sizes};
use lus_streams::owner::Owner;
use lus_tree::Program;
use sight_laws::laws::{
    callees_are_there, constants_are_known, frames_have_room, sights_are_sights,
};
use slot_values::Resolved;
use std::alloc::{AllocError, Global};
use steady_laws::laws::{constants_are_kept, texts_are_steady};
use sys_frames::{missing_at, place_named};
use sys_tables::numbers::behind_own;
use sys_tables::sight::sight;
use sys_tables::table::Table;
use sys_tables::tables::tables;
use sys_texts::sight::Sight;

/// What makes an instant of a declaration lawful.
fn legal_within(
    tables: Tables<'_, '_>,
    depth: usize,
    table: &Table<'_>,
) -> Result<Vec<Resolved>, AllocError>
    requires room { HasRoomWithin depth (tables_view tables.all.now) (table_view table.now) Plain 0 }
    ensures { IfOk result (λ v. resolutions_view v.items ≡ legal_within depth (tables_view tables.entry.all.now)
        tables.entry.missing (table_view table.now)) }
{
    let mut resolutions = Vec::new(tables.alloc);
    let conditions = conditions_within(tables, depth, table, Way::Plain, 0)?;
    push_copies(tables.alloc, &mut resolutions, &conditions.assumes)?;
    visit_frame(tables, depth, &mut resolutions, table, Way::Plain, 0)?;
    Ok(resolutions)
}

/// What makes an instant lawful of the declaration of that place; nothing where there is none.
fn legal_at(tables: Tables<'_, '_>, depth: usize, place: usize) -> Result<Vec<Resolved>, AllocError>
    requires room { IfThere (HasRoomWithin depth (tables_view tables.all.now))
        (slice_get (tables_view tables.all.now) place) Plain 0 }
    ensures { IfOk result (λ v. resolutions_view v.items ≡ legal_or_none depth (tables_view tables.entry.all.now)
        tables.entry.missing (slice_get (tables_view tables.entry.all.now) place)) }
{
    match table_at(tables.all, place) {
        Some(table) => legal_within(tables, depth, table),
        None => Ok(Vec::new(tables.alloc)),
    }
}

/// The properties of a declaration, whose frame is seen so and has these modes and conditions, and whose calls stand
/// from there on.
fn properties_over(
    tables: Tables<'_, '_>,
    depth: usize,
    table: &Table<'_>,
    sight: &Sight<'_>,
    modes: &[Asked<'_>],
    conditions: &Conditions<'_>,
) -> Result<Vec<Resolved>, AllocError>
    requires room { HasRoomWithin depth (tables_view tables.all.now) (table_view table.now) Plain 0 }
    ensures { IfOk result (λ v. resolutions_view v.items ≡ properties_over (sight_view sight.now)
        (all_asked_view modes.now) (conditions_view conditions.now) (table_view table.now)
        (owed_within depth (tables_view tables.entry.all.now) tables.entry.missing (table_view table.now)
        (behind_own Plain (table_view table.now) 0))) }
{
    let mut resolutions = Vec::new(tables.alloc);
    push_properties(
        tables.alloc,
        &mut resolutions,
        sight,
        modes,
        table.owner.body(),
    )?;
    push_promises(tables.alloc, &mut resolutions, conditions)?;
    let from = behind_own(table, Way::Plain, 0);
    push_owed_within(tables, depth, &mut resolutions, table, from)?;
    Ok(resolutions)
}

/// The properties of a declaration.
fn properties_within(
    tables: Tables<'_, '_>,
    depth: usize,
    table: &Table<'_>,
) -> Result<Vec<Resolved>, AllocError>
    requires room { HasRoomWithin depth (tables_view tables.all.now) (table_view table.now) Plain 0 }
    ensures { IfOk result (λ v. resolutions_view v.items ≡ properties_within depth (tables_view tables.entry.all.now)
        tables.entry.missing (table_view table.now)) }
{
    let conditions = conditions_within(tables, depth, table, Way::Plain, 0)?;
    let sight = sight(tables.alloc, table, Way::Plain, 0, tables.missing)?;
    let from = behind_own(table, Way::Plain, 0);
    let modes = modes_seen(tables, depth, table, &sight, from)?;
    properties_over(tables, depth, table, &sight, &modes, &conditions)
}

/// The properties of the declaration of that place; nothing where there is none.
fn properties_at(
    tables: Tables<'_, '_>,
    depth: usize,
    place: usize,
) -> Result<Vec<Resolved>, AllocError>
    requires room { IfThere (HasRoomWithin depth (tables_view tables.all.now))
        (slice_get (tables_view tables.all.now) place) Plain 0 }
    ensures { IfOk result (λ v. resolutions_view v.items ≡ properties_or_none depth
        (tables_view tables.entry.all.now) tables.entry.missing
        (slice_get (tables_view tables.entry.all.now) place)) }
{
    match table_at(tables.all, place) {
        Some(table) => properties_within(tables, depth, table),
        None => Ok(Vec::new(tables.alloc)),
    }
}

/// What makes an instant of a declaration of a checked program lawful: its assumptions, and the assertions of all
/// frames.
///
/// # Errors
///
/// Only want of memory.
pub fn legal(alloc: Global, program: &Program, node: Owner<'_>) -> Result<Vec<Resolved>, AllocError>
    requires checked { IsChecked (program_view program.now) }
    requires declared { Contains (components (program_view program.now)) (owner_view node) }
    requires small { width (instance_of (program_view program.now) (owner_view node)) < 20001 }
    ensures exact { IfOk result (λ v. map resolved_view v.items
        ≡ legal_resolutions (instance_of (program_view program.now) (owner_view node.entry))) }
{
    texts_are_steady();
    constants_are_kept();
    callees_are_there();
    frames_have_room();
    constants_are_known();
    sights_are_sights();
    let all = tables(alloc, program)?;
    let sizes = system_sizes(alloc, program)?;
    let depth = program.decls.len();
    let place = place_named(&all, node.name());
    let missing = missing_at(&sizes, place);
    let tables = Tables {
        alloc,
        all: &all,
        missing,
    };
    legal_at(tables, depth, place)
}

/// The properties of a declaration of a checked program: those of its body, what its contract promises, and what its
/// calls owe.
///
/// # Errors
///
/// Only want of memory.
pub fn properties(
    alloc: Global,
    program: &Program,
    node: Owner<'_>,
) -> Result<Vec<Resolved>, AllocError>
    requires checked { IsChecked (program_view program.now) }
    requires declared { Contains (components (program_view program.now)) (owner_view node) }
    requires small { width (instance_of (program_view program.now) (owner_view node)) < 20001 }
    ensures exact { IfOk result (λ v. map resolved_view v.items
        ≡ property_resolutions (instance_of (program_view program.now) (owner_view node.entry))) }
{
    texts_are_steady();
    constants_are_kept();
    callees_are_there();
    frames_have_room();
    constants_are_known();
    sights_are_sights();
    let all = tables(alloc, program)?;
    let sizes = system_sizes(alloc, program)?;
    let depth = program.decls.len();
    let place = place_named(&all, node.name());
    let missing = missing_at(&sizes, place);
    let tables = Tables {
        alloc,
        all: &all,
        missing,
    };
    properties_at(tables, depth, place)
}
