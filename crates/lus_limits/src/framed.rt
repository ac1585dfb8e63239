//! The frames of a program's declarations: their own cells, and how their calls are linked.

ghost use Rattle.std.specs.Prelude.{◌≡◌, ◌<◌, IfOk, get_or, length, map};
ghost use Rattle.lus_tree.specs.View.{program_view};
ghost use Rattle.lus_meaning.specs.ClockFaults.{components};
ghost use Rattle.lus_meaning.specs.Program.{all_sites};
ghost use Rattle.lus_meaning.specs.Refusals.{IsChecked};
ghost use Rattle.lus_meaning.specs.Scene.{no_component};
ghost use Rattle.lus_limits.specs.Framed.{frame_of, frame_view};
ghost use Rattle.lus_limits.specs.Summaries.{cut, link_of, own_count};
ghost use Rattle.lus_limits.specs.Tables.{IsTableOf};
ghost use Rattle.lus_streams.specs.Owner.{owner_view};

use crate::needs::links;
use crate::part::has_contract;
use crate::settling::{Table, all_needs};
use crate::sites::calls_of;
use crate::summing::{Link, own_count};
use crate::texts::sides_of;
use lus_streams::owner::Owner;
use lus_tree::Program;
use std::alloc::{AllocError, Global};

/// The frame of a declaration: how many cells it has of its own where it runs as an import, cut at 20,001; whether the
/// declaration has a contract, for which it has one more where it runs otherwise; and its calls and imports, in the
/// order of their numbers.
#[derive(Drop)]
pub struct Frame {
    pub own: usize,
    pub contract: bool,
    pub links: Vec<Link>,
}

/// How many cells a declaration's frame has of its own where it runs as an import, cut.
fn own_cells(alloc: Global, part: Owner<'_>) -> Result<usize, AllocError>
    ensures { IfOk result (λ k. k ≡ cut (own_count (owner_view part.entry))) }
{
    let texts = sides_of(alloc, part)?;
    Ok(own_count(part, &texts))
}

/// How the calls of the declaration with that number are linked.
fn links_of(
    alloc: Global,
    program: &Program,
    table: &Table<'_>,
    number: usize,
) -> Result<Vec<Link>, AllocError>
    requires checked { IsChecked (program_view program.now) }
    requires known { IsTableOf (program_view program.now) table.now }
    requires below { number < length (components (program_view program.now)) }
    ensures { IfOk result (λ v. v.items ≡ map (link_of (program_view program.now))
        (all_sites (get_or (components (program_view program.now)) number no_component))) }
{
    let _ = program;
    let calls = calls_of(alloc, table.parts[number])?;
    let links = links(alloc, &table.names, &table.parts, &table.known, &calls)?;
    Ok(links.unwrap())
}

/// The frame of the declaration with that number.
fn framed(
    alloc: Global,
    program: &Program,
    table: &Table<'_>,
    number: usize,
) -> Result<Frame, AllocError>
    requires checked { IsChecked (program_view program.now) }
    requires known { IsTableOf (program_view program.now) table.now }
    requires below { number < length (components (program_view program.now)) }
    ensures { IfOk result (λ f. frame_view f ≡ frame_of (program_view program.now)
        (get_or (components (program_view program.now)) number no_component)) }
{
    let links = links_of(alloc, program, table, number)?;
    let part = table.parts[number];
    Ok(Frame {
        own: own_cells(alloc, part)?,
        contract: has_contract(part),
        links,
    })
}

/// The frames of all declarations of a program's table.
fn all_framed(alloc: Global, program: &Program, table: &Table<'_>) -> Result<Vec<Frame>, AllocError>
    requires checked { IsChecked (program_view program.now) }
    requires known { IsTableOf (program_view program.now) table.now }
    ensures { IfOk result (λ v. map frame_view v.items
        ≡ map (frame_of (program_view program.now)) (components (program_view program.now))) }
{
    let mut frames = Vec::with_capacity(alloc, table.parts.len())?;
    for number in 0..table.parts.len() {
        frames.push(framed(alloc, program, table, number)?)?;
    }
    Ok(frames)
}

/// The frames of a program's declarations, in text order, constants left out.
///
/// # Errors
///
/// Want of memory.
pub fn program_frames(alloc: Global, program: &Program) -> Result<Vec<Frame>, AllocError>
    requires checked { IsChecked (program_view program.now) }
    ensures { IfOk result (λ v. map frame_view v.items
        ≡ map (frame_of (program_view program.now)) (components (program_view program.now))) }
{
    let table = all_needs(alloc, program)?;
    all_framed(alloc, program, &table)
}
