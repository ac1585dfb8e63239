//! The faults of a program, and the clocks of its numbered occurrences.

ghost use Rattle.std.specs.Prelude.{◌≡◌, IfOk, flat_map, map};
ghost use Rattle.lus_tree.specs.View.{decl_view, program_view};
ghost use Rattle.lus_meaning.specs.ClockFaults.{clock_faults};
ghost use Rattle.lus_scopes.specs.Least.{IsLeast, least_view, noted_all};
ghost use Rattle.lus_clocks.specs.Items.{component_walk, declaration_walk};
ghost use Rattle.lus_streams.specs.Owner.{owner_view};
ghost use Rattle.lus_clocks.specs.Program.{KeepAll, Keeps, KeepsOf};

use crate::items::component;
use crate::sites::table_of;
use crate::table::Table;
use lus_scopes::least::Least;
use lus_streams::lookup::with_streams;
use lus_streams::owner::Owner;
use lus_streams::streams::streams_of;
use lus_tree::{Decl, Program};
use std::alloc::{AllocError, Global};

/// Notes the faults of a declaration with parts, and gives the clocks of its occurrences.
fn with_parts(alloc: Global, least: &mut Least, owner: Owner<'_>) -> Result<Table, AllocError>
    ensures noted { IfOk result (λ _. least_view least.new
        ≡ noted_all (least_view least.old) (component_walk (owner_view owner.entry))) }
    ensures kept { IfOk result (λ t. KeepsOf t (owner_view owner.entry)) }
{
    let streams = streams_of(alloc, owner)?;
    let names = with_streams(owner, &streams);
    component(names, least);
    table_of(alloc, names)
}

/// Notes the faults of a declaration, and gives the clocks of its occurrences.
fn declaration(alloc: Global, least: &mut Least, decl: &Decl) -> Result<Table, AllocError>
    ensures noted { IfOk result (λ _. least_view least.new
        ≡ noted_all (least_view least.old) (declaration_walk (decl_view decl.now))) }
    ensures kept { IfOk result (λ t. Keeps t (decl_view decl.now)) }
{
    match decl {
        Decl::Constant(_) => Ok(Table::new(alloc)),
        Decl::Node(node) => with_parts(alloc, least, Owner::Node(node)),
        Decl::Contract(contract) => with_parts(alloc, least, Owner::Contract(contract)),
    }
}

/// Notes the faults of declarations, and gives the clocks of their occurrences.
#[tactic(auto, using(lus_scopes::proofs::Leasts::noted_append))]
fn declarations(alloc: Global, least: &mut Least, decls: &[Decl]) -> Result<Vec<Table>, AllocError>
    ensures noted { IfOk result (λ _. least_view least.new
        ≡ noted_all (least_view least.old) (flat_map declaration_walk (map decl_view decls.now))) }
    ensures kept { IfOk result (λ ts. KeepAll ts.items (map decl_view decls.now)) }
{
    let mut tables = Vec::new(alloc);
    for decl in decls {
        tables.push(declaration(alloc, least, decl)?)?;
    }
    Ok(tables)
}

/// The first fault of a program's clocks, and the clocks of its numbered occurrences by declarations.
#[derive(Drop)]
pub(crate) struct Found {
    pub(crate) least: Least,
    pub(crate) tables: Vec<Table>,
}

/// What is found in a program.
///
/// # Errors
///
/// Want of memory.
pub(crate) fn checked(alloc: Global, program: &Program) -> Result<Found, AllocError>
    ensures least { IfOk result (λ f. IsLeast (least_view f.least) (clock_faults (program_view program.now))) }
    ensures kept { IfOk result (λ f. KeepAll f.tables.items (program_view program.now)) }
{
    let mut least = Least::new();
    let tables = declarations(alloc, &mut least, &program.decls)?;
    Ok(Found { least, tables })
}
