//! How large the systems of a program's declarations are.

ghost use Rattle.std.specs.Prelude.{◌≡◌, ◌+◌, ◌<◌, IfOk, get_or, length, map};
ghost use Rattle.lus_tree.specs.View.{program_view};
ghost use Rattle.lus_meaning.specs.ClockFaults.{components};
ghost use Rattle.lus_meaning.specs.Program.{all_sites};
ghost use Rattle.lus_meaning.specs.Refusals.{IsChecked};
ghost use Rattle.lus_meaning.specs.Scene.{no_component};
ghost use Rattle.lus_limits.specs.Calls.{called_of};
ghost use Rattle.lus_limits.specs.Contracted.{summary_seen};
ghost use Rattle.lus_limits.specs.Measured.{size_view};
ghost use Rattle.lus_limits.specs.Nodes.{node_terms};
ghost use Rattle.lus_limits.specs.SizeCuts.{cut_term};
ghost use Rattle.lus_limits.specs.Summaries.{cut, sofar_count};
ghost use Rattle.lus_limits.specs.Tables.{IsTableOf};
ghost use Rattle.lus_limits.specs.SystemSizes.{system_size};
ghost use Rattle.lus_streams.specs.Owner.{owner_view};

use crate::calls::Way;
use crate::contract_size::SizeSummary;
use crate::needs::needs_at;
use crate::node_size::node_terms;
use crate::settling::{Table, all_needs};
use crate::sites::calls_of;
use crate::summing::{Summary, sofar_count, sum};
use crate::term_size::Size;
use lus_streams::lookup::with_streams;
use lus_streams::owner::Owner;
use lus_streams::streams::streams_of;
use lus_tree::Program;
use std::alloc::{AllocError, Global};

/// How large the system of a declaration is: how many properties and variables it has, and the greatest levels and the
/// greatest parts of its terms. Each number is cut one past the greatest limit of its kind: at 20,001, levels at 4,001,
/// parts at 1,000,001.
#[derive(Clone, Copy)]
pub struct SystemSize {
    pub properties: usize,
    pub variables: usize,
    pub levels: u32,
    pub parts: u32,
}

/// How many variables a declaration's frame has where it runs plainly.
fn variables(counts: &Summary) -> usize
    ensures { result ≡ cut (counts.now.frame + sofar_count Way.Plain counts.now.contract) }
{
    sum(counts.frame, sofar_count(Way::Plain, counts.contract))
}

/// The greatest of the terms of a declaration's system, cut.
fn terms(
    alloc: Global,
    table: &Table<'_>,
    owner: Owner<'_>,
    sizes: &SizeSummary,
) -> Result<Size, AllocError>
    requires { length table.now.known.items ≡ length table.now.names }
    ensures { IfOk result (λ s. size_view s ≡ cut_term (node_terms table.now.names table.now.known.items
        (map called_of (all_sites (owner_view owner.entry))) (owner_view owner.entry) (summary_seen sizes.now))) }
{
    let calls = calls_of(alloc, owner)?;
    let streams = streams_of(alloc, owner)?;
    let names = with_streams(owner, &streams);
    Ok(node_terms(names, &table.names, &table.known, &calls, sizes))
}

/// How large the system of the declaration with that number is.
fn system_size(
    alloc: Global,
    program: &Program,
    table: &Table<'_>,
    number: usize,
) -> Result<SystemSize, AllocError>
    requires checked { IsChecked (program_view program.now) }
    requires known { IsTableOf (program_view program.now) table.now }
    requires below { number < length (components (program_view program.now)) }
    ensures { IfOk result (λ t. t ≡ system_size (program_view program.now)
        (get_or (components (program_view program.now)) number no_component)) }
{
    let _ = program;
    let needs = needs_at(&table.known, number).unwrap();
    let terms = terms(alloc, table, table.parts[number], &needs.sizes)?;
    Ok(SystemSize {
        properties: needs.counts.properties,
        variables: variables(&needs.counts),
        levels: terms.levels,
        parts: terms.parts,
    })
}

/// How large the systems of a program's declarations are, in text order, constants left out.
///
/// # Errors
///
/// Want of memory.
pub fn system_sizes(alloc: Global, program: &Program) -> Result<Vec<SystemSize>, AllocError>
    requires checked { IsChecked (program_view program.now) }
    ensures { IfOk result (λ v. v.items
        ≡ map (system_size (program_view program.now)) (components (program_view program.now))) }
{
    let table = all_needs(alloc, program)?;
    let mut sizes = Vec::with_capacity(alloc, table.parts.len())?;
    for number in 0..table.parts.len() {
        sizes.push(system_size(alloc, program, &table, number)?)?;
    }
    Ok(sizes)
}
