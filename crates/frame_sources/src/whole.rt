//! The sources of all slots of a declaration.

ghost use Rattle.std.specs.Prelude.{◌≡◌, ◌<◌, Contains, IfOk, slice_get};
ghost use Rattle.lus_limits.specs.declared.calls.Way.TheVariants.{Plain};
ghost use Rattle.lus_meaning.specs.ClockFaults.{components};
ghost use Rattle.lus_meaning.specs.Program.{instance_of};
ghost use Rattle.lus_meaning.specs.Refusals.{IsChecked};
ghost use Rattle.lus_meaning.specs.Slots.{width};
ghost use Rattle.lus_streams.specs.Owner.{owner_view};
ghost use Rattle.lus_tree.specs.View.{program_view};
ghost use Rattle.slot_sources.specs.Sources.{sources_of};
ghost use Rattle.sys_frames.specs.Walked.{HasRoomWithin, IfThere};
ghost use Rattle.sys_tables.specs.Views.{tables_view};
ghost use Rattle.frame_sources.specs.Views.{sources_view};
ghost use Rattle.frame_sources.specs.Walked.{sources_at};

use crate::imports::Tables;
use crate::walk::visit_or_none;
use lus_limits::{Way, system_sizes};
use lus_streams::owner::Owner;
use lus_tree::Program;
use sight_laws::laws::{
    callees_are_there, constants_are_known, frames_have_room, sights_are_sights,
};
use slot_sources::Source;
use std::alloc::{AllocError, Global};
use steady_laws::laws::{constants_are_kept, texts_are_steady};
use sys_frames::{missing_at, place_named};
use sys_tables::tables::tables;

/// The sources of the declaration of that place; none where there is none.
fn sources_at(tables: Tables<'_, '_>, depth: usize, place: usize) -> Result<Vec<Source>, AllocError>
    requires room { IfThere (HasRoomWithin depth (tables_view tables.all.now))
        (slice_get (tables_view tables.all.now) place) Plain 0 }
    ensures { IfOk result (λ v. sources_view v.items ≡ sources_at depth (tables_view tables.entry.all.now)
        tables.entry.missing (slice_get (tables_view tables.entry.all.now) place)) }
{
    let mut sources = Vec::new(tables.alloc);
    let given = Vec::new(tables.alloc);
    visit_or_none(
        tables,
        depth,
        &mut sources,
        place,
        Way::Plain,
        0,
        Source::Always,
        given,
    )?;
    Ok(sources)
}

/// The sources of all slots of a declaration of a checked program, in the order of their numbers.
///
/// # Errors
///
/// Only want of memory.
pub fn sources(alloc: Global, program: &Program, node: Owner<'_>) -> Result<Vec<Source>, AllocError>
    requires checked { IsChecked (program_view program.now) }
    requires declared { Contains (components (program_view program.now)) (owner_view node) }
    requires small { width (instance_of (program_view program.now) (owner_view node)) < 20001 }
    ensures exact { IfOk result (λ v. sources_view v.items
        ≡ sources_of (instance_of (program_view program.now) (owner_view node.entry))) }
{
    texts_are_steady();
    constants_are_kept();
    callees_are_there();
    frames_have_room();
    constants_are_known();
    sights_are_sights();
    let all = tables(alloc, program)?;
    let sizes = system_sizes(alloc, program)?;
    let depth = program.decls.len();
    let place = place_named(&all, node.name());
    let missing = missing_at(&sizes, place);
    let tables = Tables {
        alloc,
        all: &all,
        missing,
    };
    sources_at(tables, depth, place)
}
