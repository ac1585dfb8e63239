//! The tables of the declarations of a program.

ghost use Rattle.std.specs.Prelude.{◌≡◌, ◌++◌, ◌∷◌, [], IfOk, is_none, map, not};
ghost use Rattle.lus_tree.specs.View.{decl_view, program_view};
ghost use Rattle.lus_meaning.specs.ClockFaults.{components};
ghost use Rattle.lus_meaning.specs.Occurrences.{memories, starts};
ghost use Rattle.lus_meaning.specs.Program.{in_order};
ghost use Rattle.lus_meaning.specs.Refusals.{IsChecked};
ghost use Rattle.lus_layouts.specs.Layouts.{layout_view};
ghost use Rattle.lus_streams.specs.Names.{names_view};
ghost use Rattle.lus_streams.specs.Owner.{owner_view};
ghost use Rattle.sys_conditions.specs.Views.{memory_view, start_view};
ghost use Rattle.sys_tables.specs.Made.{table_by, tables_by};
ghost use Rattle.sys_tables.specs.Tabled.{names_of, table_of};
ghost use Rattle.sys_tables.specs.Views.{fixed_view, table_view, tables_view};

use crate::constants::{constants_of, outer_constants};
use crate::links::{all_linked, sites_of};
use crate::order::in_order;
use crate::streams::streams_of;
use crate::table::{Fixed, Linked, Table};
use lus_layouts::{CallSlots, Layout, layouts};
use lus_streams::lookup::with_streams;
use lus_streams::names::Names;
use lus_streams::owner::Owner;
use lus_streams::streams::streams_of as named_streams;
use lus_tree::{Decl, Program};
use name_table::NameTable;
use std::alloc::{AllocError, Global};
use sys_conditions::occurrences::{Memory, Start};
use sys_occurrences::memories::memories;
use sys_occurrences::starts::starts;

/// The declarations, and behind them one with streams.
fn push_part<'a>(parts: &mut Vec<Owner<'a>>, decl: &'a Decl) -> Result<(), AllocError>
    ensures { IfOk result (λ _. map owner_view parts.new.items ≡ map owner_view parts.old.items
        ++ components (decl_view decl.now ∷ [])) }
{
    match decl {
        Decl::Constant(_) => {}
        Decl::Node(node) => {
            parts.push(Owner::Node(node))?;
        }
        Decl::Contract(contract) => {
            parts.push(Owner::Contract(contract))?;
        }
    }
    Ok(())
}

/// The declarations of a program with streams, in text order.
fn parts_of(alloc: Global, program: &Program) -> Result<Vec<Owner<'_>>, AllocError>
    ensures { IfOk result (λ v. map owner_view v.items ≡ components (program_view program.now)) }
{
    let mut parts = Vec::new(alloc);
    for decl in &program.decls {
        push_part(&mut parts, decl)?;
    }
    Ok(parts)
}

/// The names of declarations.
fn words_of<'a>(alloc: Global, parts: &[Owner<'a>]) -> Result<Vec<&'a str>, AllocError>
    ensures { IfOk result (λ v. map (λ x. x.now) v.items ≡ names_of (map owner_view parts.now)) }
{
    let mut words = Vec::new(alloc);
    for part in parts {
        words.push(part.name())?;
    }
    Ok(words)
}

/// Whether a declaration has a contract.
fn has_contract(owner: Owner<'_>) -> bool
    ensures { result ≡ not (is_none (owner_view owner.entry).contract) }
{
    match owner {
        Owner::Node(node) => node.contract.is_some(),
        Owner::Contract(_) => true,
    }
}

/// The `pre` of a declaration, in the order of their numbers.
#[tactic(auto, using(crate::proofs::Ordered::memories_ordered))]
fn memories_of<'a>(alloc: Global, names: Names<'a, '_>) -> Result<Vec<Memory<'a>>, AllocError>
    ensures { IfOk result (λ v. map memory_view v.items
        ≡ in_order (λ m. m.number) (memories (names_view names.entry))) }
{
    let found = memories(alloc, names)?;
    in_order(alloc, &found)
}

/// The `->` of a declaration, in the order of their numbers.
#[tactic(auto, using(crate::proofs::Ordered::starts_ordered))]
fn starts_of<'a>(alloc: Global, names: Names<'a, '_>) -> Result<Vec<Start<'a>>, AllocError>
    ensures { IfOk result (λ v. map start_view v.items ≡ in_order (λ a. a.number) (starts (names_view names.entry))) }
{
    let found = starts(alloc, names)?;
    in_order(alloc, &found)
}

/// An equal layout.
fn copied(alloc: Global, layout: &Layout) -> Result<Layout, AllocError>
    ensures { IfOk result (λ l. layout_view l ≡ layout_view layout.now) }
{
    Ok(Layout {
        own: layout.own,
        imported: layout.imported,
        calls: layout.calls.to_vec(alloc)?,
    })
}

/// What is known of a declaration, where the program has these constants.
fn table<'a>(
    alloc: Global,
    names: &NameTable,
    parts: &[Owner<'a>],
    outer: &[Fixed<'a>],
    owner: Owner<'a>,
    layout: &Layout,
) -> Result<Table<'a>, AllocError>
    ensures { IfOk result (λ t. table_view t ≡ table_by names.now (map owner_view parts.now) (map fixed_view outer.now)
        (owner_view owner.entry) (layout_view layout.now)) }
{
    let by_name = named_streams(alloc, owner)?;
    let own = with_streams(owner, &by_name);
    let known = constants_of(alloc, outer, owner)?;
    let sites = sites_of(alloc, own)?;
    let calls = all_linked(alloc, names, parts, &known, &sites, &layout.calls)?;
    Ok(Table {
        owner,
        constants: known.values,
        streams: streams_of(alloc, owner)?,
        memories: memories_of(alloc, own)?,
        starts: starts_of(alloc, own)?,
        calls,
        layout: copied(alloc, layout)?,
        contract: has_contract(owner),
    })
}

/// What is known of declarations, each with its layout.
fn all_tables<'a>(
    alloc: Global,
    names: &NameTable,
    parts: &[Owner<'a>],
    outer: &[Fixed<'a>],
    layouts: &[Layout],
) -> Result<Vec<Table<'a>>, AllocError>
    ensures { IfOk result (λ v. tables_view v.items
        ≡ tables_by names.now (map owner_view parts.now) (map fixed_view outer.now) (map owner_view parts.now)
        (map layout_view layouts.now)) }
{
    let mut tables = Vec::new(alloc);
    for place in 0..parts.len().min(layouts.len()) {
        let layout = &layouts[place];
        tables.push(table(alloc, names, parts, outer, parts[place], layout)?)?;
    }
    Ok(tables)
}

/// What is known of the declarations of a program, constants left out, in text order.
///
/// # Errors
///
/// Want of memory.
pub fn tables(alloc: Global, program: &Program) -> Result<Vec<Table<'_>>, AllocError>
    requires checked { IsChecked (program_view program.now) }
    ensures { IfOk result (λ v. tables_view v.items
        ≡ map (table_of (program_view program.now)) (components (program_view program.now))) }
{
    let parts = parts_of(alloc, program)?;
    let words = words_of(alloc, &parts)?;
    let names = NameTable::distinct(alloc, &words)?.unwrap();
    let outer = outer_constants(alloc, program)?;
    let layouts = layouts(alloc, program)?;
    all_tables(alloc, &names, &parts, &outer.values, &layouts)
}
