//! The system of a declaration.

ghost use Rattle.std.specs.Prelude.{◌≡◌, ◌<◌, [], Contains, IfOk, slice_get};
ghost use Rattle.lus_tree.specs.View.{program_view};
ghost use Rattle.lus_limits.specs.declared.calls.Way.TheVariants.{Plain};
ghost use Rattle.lus_meaning.specs.ClockFaults.{components};
ghost use Rattle.lus_meaning.specs.Program.{instance_of};
ghost use Rattle.lus_meaning.specs.Refusals.{IsChecked};
ghost use Rattle.lus_meaning.specs.Slots.{width};
ghost use Rattle.lus_streams.specs.Owner.{owner_view};
ghost use Rattle.name_table.specs.Names.{number_of};
ghost use Rattle.sys_contracts.specs.Views.{items_view};
ghost use Rattle.sys_meaning.specs.System.{system_of};
ghost use Rattle.sys_tables.specs.Numbers.{behind_own};
ghost use Rattle.sys_tables.specs.Views.{table_view, tables_view};
ghost use Rattle.sys_terms.specs.View.{system_view, terms_view};
ghost use Rattle.sys_texts.specs.Views.{sight_view};
ghost use Rattle.sys_frames.specs.Systems.{missing_in, names_in, no_machine, system_or_none};
ghost use Rattle.sys_frames.specs.Views.{lists_view};
ghost use Rattle.sys_frames.specs.Walked.{HasRoomWithin, IfThere, machine_of, system_over, system_within};

use crate::contracts::{Tables, items_seen, table_at};
use crate::lists::{Lists, no_lists};
use crate::properties::properties_of;
use crate::walk::visit_seen;
use lus_limits::{SystemSize, Way, system_sizes};
use lus_streams::owner::Owner;
use lus_tree::Program;
use sight_laws::laws::{
    callees_are_there, constants_are_known, frames_have_room, sights_are_sights,
};
use std::alloc::{AllocError, Global};
use steady_laws::laws::{constants_are_kept, texts_are_steady};
use sys_contracts::items::{Items, push_copies};
use sys_parts::formulas::flag;
use sys_tables::numbers::behind_own;
use sys_tables::sight::sight;
use sys_tables::table::Table;
use sys_tables::tables::tables;
use sys_terms::{System, Term};
use sys_texts::sight::Sight;

/// The system of what is said of frames, with these properties. The states that meet what is asserted are legal.
fn assembled(lists: Lists, properties: Vec<Term>) -> System
    ensures { system_view result ≡ machine_of (lists_view lists) [] (terms_view properties.items) }
{
    let Lists {
        shapes,
        first,
        here,
        next,
        asserts,
    } = lists;
    System {
        shapes,
        first,
        here,
        next,
        legal: asserts,
        properties,
    }
}

/// The system of a declaration whose frame is seen so and has these items.
fn system_over<'a>(
    tables: Tables<'a, '_>,
    depth: usize,
    table: &Table<'a>,
    sight: &Sight<'a>,
    items: &Items<'_>,
) -> Result<System, AllocError>
    requires room { HasRoomWithin depth (tables_view tables.all.now) (table_view table.now) Plain 0 }
    ensures { IfOk result (λ s. system_view s ≡ system_over depth (tables_view tables.entry.all.now)
        tables.entry.missing (table_view table.now) (sight_view sight.now) (items_view items.now)) }
{
    let mut lists = no_lists(tables.alloc);
    push_copies(tables.alloc, &mut lists.asserts, &items.assumes)?;
    let active = flag(sight.beat);
    visit_seen(
        tables,
        depth,
        &mut lists,
        table,
        sight,
        items,
        Way::Plain,
        0,
        active,
        &[],
    )?;
    let from = behind_own(table, Way::Plain, 0);
    let properties = properties_of(tables, depth, table, sight, items, from)?;
    Ok(assembled(lists, properties))
}

/// The system of a declaration.
fn system_within<'a>(
    tables: Tables<'a, '_>,
    depth: usize,
    table: &Table<'a>,
) -> Result<System, AllocError>
    requires room { HasRoomWithin depth (tables_view tables.all.now) (table_view table.now) Plain 0 }
    ensures { IfOk result (λ s. system_view s ≡ system_within depth (tables_view tables.entry.all.now)
        tables.entry.missing (table_view table.now)) }
{
    let sight = sight(tables.alloc, table, Way::Plain, 0, tables.missing)?;
    let items = items_seen(
        tables,
        depth,
        table,
        &sight,
        behind_own(table, Way::Plain, 0),
    )?;
    system_over(tables, depth, table, &sight, &items)
}

/// The system of nothing.
fn no_system(alloc: Global) -> System
    ensures { system_view result ≡ no_machine }
{
    System {
        shapes: Vec::new(alloc),
        first: Vec::new(alloc),
        here: Vec::new(alloc),
        next: Vec::new(alloc),
        legal: Vec::new(alloc),
        properties: Vec::new(alloc),
    }
}

/// The system of the declaration of that place; nothing where there is none.
fn system_at(tables: Tables<'_, '_>, depth: usize, place: usize) -> Result<System, AllocError>
    requires room { IfThere (HasRoomWithin depth (tables_view tables.all.now))
        (slice_get (tables_view tables.all.now) place) Plain 0 }
    ensures { IfOk result (λ s. system_view s ≡ system_or_none depth (tables_view tables.entry.all.now)
        tables.entry.missing (slice_get (tables_view tables.entry.all.now) place)) }
{
    match table_at(tables.all, place) {
        Some(table) => system_within(tables, depth, table),
        None => Ok(no_system(tables.alloc)),
    }
}

/// The place of the first declaration of that name; their number where there is none.
pub fn place_named(all: &[Table<'_>], name: &str) -> usize
    ensures { result ≡ number_of (names_in (tables_view all.now)) name.now }
{
    let mut place = 0;
    for table in all {
        if name == table.owner.name() {
            return place;
        }
        place += 1;
    }
    place
}

/// The number that stands for what isn't there in the system of the declaration at that place: that behind its last
/// variable, 0 where there is no such place.
pub fn missing_at(sizes: &[SystemSize], place: usize) -> u32
    ensures { result ≡ missing_in (slice_get sizes.now place) }
{
    match sizes.get(place) {
        Some(size) => size.variables.min(20_001) as u32,
        None => 0,
    }
}

/// The system of a declaration of a checked program: exactly its translation.
///
/// # Errors
///
/// Only want of memory.
pub fn system(alloc: Global, program: &Program, node: Owner<'_>) -> Result<System, AllocError>
    requires checked { IsChecked (program_view program.now) }
    requires declared { Contains (components (program_view program.now)) (owner_view node) }
    requires small { width (instance_of (program_view program.now) (owner_view node)) < 20001 }
    ensures exact { IfOk result (λ s. system_view s
        ≡ system_of (instance_of (program_view program.now) (owner_view node.entry))) }
{
    texts_are_steady();
    constants_are_kept();
    callees_are_there();
    frames_have_room();
    constants_are_known();
    sights_are_sights();
    let all = tables(alloc, program)?;
    let sizes = system_sizes(alloc, program)?;
    let depth = program.decls.len();
    let place = place_named(&all, node.name());
    let missing = missing_at(&sizes, place);
    let tables = Tables {
        alloc,
        all: &all,
        missing,
    };
    system_at(tables, depth, place)
}
