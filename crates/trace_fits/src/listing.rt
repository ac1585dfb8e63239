//! What a trace may list of a node.

ghost use Rattle.std.specs.Prelude.{◌≡◌, ◌++◌, ◌<◌, [], Contains, IfOk, OnOk, map, slice_get};
ghost use Rattle.std.specs.List.{AllByRecursion};
ghost use Rattle.lus_tree.specs.View.{program_view};
ghost use Rattle.lus_limits.specs.declared.calls.Way.TheVariants.{Plain};
ghost use Rattle.lus_meaning.specs.ClockFaults.{components};
ghost use Rattle.lus_meaning.specs.Fits.{listable};
ghost use Rattle.lus_meaning.specs.Program.{instance_of};
ghost use Rattle.lus_meaning.specs.Refusals.{IsChecked};
ghost use Rattle.lus_meaning.specs.Slots.{width};
ghost use Rattle.lus_streams.specs.Owner.{owner_view};
ghost use Rattle.sys_tables.specs.Views.{table_view, tables_view};
ghost use Rattle.sys_frames.specs.Walked.{HasRoomWithin, IfThere};
ghost use Rattle.trace_fits.specs.Given.{IsSlotted};
ghost use Rattle.trace_fits.specs.Views.{listable_view, slotted_view};
ghost use Rattle.trace_fits.specs.Walked.{all_listed, all_or_none};

use crate::permitted::Listable;
use crate::streams::push_streams;
use crate::walk::{Tables, table_at, visit_frame};
use lus_limits::{Way, system_sizes};
use lus_streams::owner::Owner;
use lus_tree::Program;
use sight_laws::laws::{
    callees_are_there, constants_are_known, frames_have_room, sights_are_sights,
};
use std::alloc::{AllocError, Global};
use steady_laws::laws::{constants_are_kept, texts_are_steady};
use sys_frames::{missing_at, place_named};
use sys_tables::table::Table;
use sys_tables::tables::tables;

/// The list, and behind it what may be listed of a node: its inputs, and then what is free.
fn push_all<'a>(
    tables: Tables<'a, '_>,
    depth: usize,
    list: &mut Vec<Listable<'a>>,
    table: &Table<'a>,
) -> Result<(), AllocError>
    requires { HasRoomWithin depth (tables_view tables.all.now) (table_view table.now) Plain 0 }
    ensures { OnOk result (map slotted_view list.new.items ≡ map slotted_view list.old.items
        ++ all_listed (tables_view tables.entry.all.now) tables.entry.missing tables.entry.instants depth
        (table_view table.now)) }
{
    let instants = tables.instants;
    push_streams(list, tables.alloc, &[], instants, true, 1, &table.streams)?;
    visit_frame(tables, depth, list, Way::Plain, 0, &[], table)
}

/// What may be listed of the node of that place; nothing where there is none.
fn listed_at<'a>(
    tables: Tables<'a, '_>,
    depth: usize,
    place: usize,
) -> Result<Vec<Listable<'a>>, AllocError>
    requires { IfThere (HasRoomWithin depth (tables_view tables.all.now))
        (slice_get (tables_view tables.all.now) place) Plain 0 }
    ensures { IfOk result (λ v. map slotted_view v.items ≡ all_or_none (tables_view tables.entry.all.now)
        tables.entry.missing tables.entry.instants depth (slice_get (tables_view tables.entry.all.now) place)) }
{
    let mut list = Vec::new(tables.alloc);
    match table_at(tables.all, place) {
        Some(table) => {
            push_all(tables, depth, &mut list, table)?;
            Ok(list)
        }
        None => Ok(list),
    }
}

/// What a trace of so many instants may list of a node, function or contract node of a checked program whose frame
/// has at most 20,000 variables: first its inputs; then of each frame, that of the node and those of its calls and
/// imports by number, the names without an equation, none of them in an import's frame, and the first value of each
/// `pre`. Each with the number of its slot.
///
/// # Errors
///
/// Only want of memory.
pub fn listable<'a>(
    alloc: Global,
    program: &'a Program,
    node: Owner<'a>,
    instants: u32,
) -> Result<Vec<Listable<'a>>, AllocError>
    requires checked { IsChecked (program_view program.now) }
    requires declared { Contains (components (program_view program.now)) (owner_view node) }
    requires small { width (instance_of (program_view program.now) (owner_view node)) < 20001 }
    ensures exact { IfOk result (λ v. map listable_view v.items
        ≡ listable instants (instance_of (program_view program.now) (owner_view node.entry))) }
    ensures slots { IfOk result (λ v.
        AllByRecursion (IsSlotted (instance_of (program_view program.now) (owner_view node.entry)))
        (map slotted_view v.items)) }
{
    texts_are_steady();
    constants_are_kept();
    callees_are_there();
    frames_have_room();
    constants_are_known();
    sights_are_sights();
    let all = tables(alloc, program)?;
    let sizes = system_sizes(alloc, program)?;
    let depth = program.decls.len();
    let place = place_named(&all, node.name());
    let missing = missing_at(&sizes, place);
    let tables = Tables {
        alloc,
        all: &all,
        missing,
        instants,
    };
    listed_at(tables, depth, place)
}
