//! Assumptions that read outputs.

ghost use Rattle.std.specs.Prelude.{◌≡◌, ℕ, ◌++◌, [], IfOk, List, false, true, map, flat_map, length, set};
ghost use Rattle.lus_tree.specs.Reason.{Refused};
ghost use Rattle.lus_tree.specs.View.{contract_item_view, expr_view, param_view};
ghost use Rattle.lus_meaning.specs.NameFaults.{assumption_faults};
ghost use Rattle.lus_types.specs.Called.{link_of};
ghost use Rattle.lus_types.specs.Given.{IsGiven, output_names};
ghost use Rattle.lus_scopes.specs.Least.{least_view, noted_all};
ghost use Rattle.lus_scopes.specs.Notes.{Notes};
ghost use Rattle.lus_types.specs.Marks.{is_marked, link_view, row_view};
ghost use Rattle.lus_types.specs.Reads.{added, ghost_readings, is_given, names_read, read_faults, read_in, read_view, reading_row, seeded};
ghost use Rattle.lus_scopes.specs.Scopes.{scope_view};

use crate::marks::{Link, Row, is_marked, mark, no_marks, spread};
use crate::reads::{Read, push_reads, restricted_reads};
use crate::recursion::number_of;
use lus_scopes::least::Least;
use lus_scopes::lookup::is_ghost;
use lus_scopes::scope::Scope;
use lus_tree::{ContractItem, Expr, Param, What};
use name_table::NameTable;
use std::alloc::{AllocError, Global};

/// The names, and behind them those of the outputs that are new.
fn add_outputs(alloc: Global, names: &mut NameTable, outputs: &[Param]) -> Result<(), AllocError>
    ensures { IfOk result (λ _. names.new ≡ added names.old (output_names (map param_view outputs.now))) }
{
    for output in outputs {
        names.add(alloc, &output.name.text)?;
    }
    Ok(())
}

/// The names, and behind them that of a ghost variable, where it is new.
fn add_ghost(
    alloc: Global,
    scope: &Scope<'_>,
    names: &mut NameTable,
    item: &ContractItem,
) -> Result<(), AllocError>
    ensures { IfOk result (λ _. names.new
        ≡ added names.old (names_read (ghost_readings (scope_view scope.now) (contract_item_view item.now)))) }
{
    if let ContractItem::Ghost(param, _) = item {
        if is_ghost(scope, &param.name.text) {
            names.add(alloc, &param.name.text)?;
        }
    }
    Ok(())
}

/// The names, and behind them those of the ghost variables that are new.
fn add_ghosts(
    alloc: Global,
    scope: &Scope<'_>,
    names: &mut NameTable,
    items: &[ContractItem],
) -> Result<(), AllocError>
    ensures { IfOk result (λ _. names.new ≡ added names.old
        (names_read (flat_map (ghost_readings (scope_view scope.now)) (map contract_item_view items.now)))) }
{
    for item in items {
        add_ghost(alloc, scope, names, item)?;
    }
    Ok(())
}

/// The links, and behind them one to what is read, where that has a number.
fn push_read_link(
    links: &mut Vec<Link>,
    names: &NameTable,
    read: Read<'_>,
) -> Result<(), AllocError>
    ensures { IfOk result (λ _. map link_view links.new.items ≡ map link_view links.old.items
        ++ link_of names.now (read_view read.entry)) }
{
    if let Some(to) = names.number(read.text) {
        let link = Link { to, at: read.at };
        links.push(link)?;
    }
    Ok(())
}

/// The links to what is read.
fn read_links(alloc: Global, names: &NameTable, reads: &[Read<'_>]) -> Result<Vec<Link>, AllocError>
    ensures { IfOk result (λ v. map link_view v.items ≡ flat_map (link_of names.now) (map read_view reads.now)) }
{
    let mut links = Vec::new(alloc);
    for read in reads {
        push_read_link(&mut links, names, *read)?;
    }
    Ok(links)
}

/// The row of a ghost variable.
fn ghost_row(alloc: Global, names: &NameTable, name: &str, value: &Expr) -> Result<Row, AllocError>
    ensures { IfOk result (λ r. row_view r ≡ reading_row names.now (name.now, read_in (expr_view value.now))) }
{
    let mut reads = Vec::new(alloc);
    push_reads(alloc, &mut reads, value)?;
    let links = read_links(alloc, names, &reads)?;
    Ok(Row {
        from: number_of(names, name),
        links,
    })
}

/// The rows, and behind them that of a ghost variable.
fn push_ghost_row(
    alloc: Global,
    rows: &mut Vec<Row>,
    scope: &Scope<'_>,
    names: &NameTable,
    item: &ContractItem,
) -> Result<(), AllocError>
    ensures { IfOk result (λ _. map row_view rows.new.items ≡ map row_view rows.old.items
        ++ map (reading_row names.now) (ghost_readings (scope_view scope.now) (contract_item_view item.now))) }
{
    if let ContractItem::Ghost(param, value) = item {
        if is_ghost(scope, &param.name.text) {
            let row = ghost_row(alloc, names, &param.name.text, value)?;
            rows.push(row)?;
        }
    }
    Ok(())
}

/// A row for each ghost variable.
fn ghost_rows(
    alloc: Global,
    scope: &Scope<'_>,
    names: &NameTable,
    items: &[ContractItem],
) -> Result<Vec<Row>, AllocError>
    ensures { IfOk result (λ v. map row_view v.items ≡ map (reading_row names.now)
        (flat_map (ghost_readings (scope_view scope.now)) (map contract_item_view items.now))) }
{
    let mut rows = Vec::new(alloc);
    for item in items {
        push_ghost_row(alloc, &mut rows, scope, names, item)?;
    }
    Ok(rows)
}

/// Marks the numbers of outputs.
fn mark_outputs(marks: &mut [bool], names: &NameTable, outputs: &[Param])
    ensures { marks.new ≡ seeded names.now marks.old (output_names (map param_view outputs.now)) }
{
    for output in outputs {
        mark(marks, number_of(names, &output.name.text));
    }
}

/// The names of outputs and ghost variables, and which of them are outputs or read one at their own
/// instant, directly or through other ghost variables.
#[derive(Drop)]
struct Given {
    names: NameTable,
    marks: Vec<bool>,
}

/// The names of outputs and of ghost variables.
fn given_names(
    alloc: Global,
    scope: &Scope<'_>,
    items: &[ContractItem],
    outputs: &[Param],
) -> Result<NameTable, AllocError>
    ensures { IfOk result (λ t. t ≡ added (added [] (output_names (map param_view outputs.now)))
        (names_read (flat_map (ghost_readings (scope_view scope.now)) (map contract_item_view items.now)))) }
{
    let mut names = NameTable::new(alloc);
    add_outputs(alloc, &mut names, outputs)?;
    add_ghosts(alloc, scope, &mut names, items)?;
    Ok(names)
}

/// The outputs, and the ghost variables that read one.
fn given_of(
    alloc: Global,
    scope: &Scope<'_>,
    items: &[ContractItem],
    outputs: &[Param],
) -> Result<Given, AllocError>
    ensures { IfOk result (λ g. IsGiven (output_names (map param_view outputs.now))
        (flat_map (ghost_readings (scope_view scope.now)) (map contract_item_view items.now)) g.names g.marks.items) }
{
    let names = given_names(alloc, scope, items, outputs)?;
    let rows = ghost_rows(alloc, scope, &names, items)?;
    let mut marks = no_marks(alloc, names.len())?;
    mark_outputs(&mut marks, &names, outputs);
    spread(&mut marks, &rows);
    Ok(Given { names, marks })
}

/// Whether a name is among them.
fn is_given(given: &Given, name: &str) -> bool
    ensures { result ≡ is_given given.now.names given.now.marks.items name.now }
{
    match given.names.number(name) {
        Some(number) => is_marked(&given.marks, number),
        None => false,
    }
}

/// Notes the reads of names that are given.
fn note_reads(least: &mut Least, given: &Given, reads: &[Read<'_>])
    ensures { least_view least.new ≡ noted_all (least_view least.old)
        (read_faults given.now.names given.now.marks.items (map read_view reads.now)) }
{
    for read in reads {
        least.note_if(is_given(given, read.text), What::AssumeReadsOutput, read.at);
    }
}

/// Notes what assumptions, and arguments of imports, read of outputs at their own instant.
///
/// # Errors
///
/// Want of memory.
pub(crate) fn assumption(
    alloc: Global,
    scope: &Scope<'_>,
    least: &mut Least,
) -> Result<(), AllocError>
    ensures { IfOk result (λ _. Notes (least_view least.old) (least_view least.new)
        (assumption_faults (scope_view scope.now))) }
{
    let items = scope.owner.contract();
    let outputs = scope.owner.outputs();
    let given = given_of(alloc, scope, items, outputs)?;
    let reads = restricted_reads(alloc, items)?;
    note_reads(least, &given, &reads);
    Ok(())
}
