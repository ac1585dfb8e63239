//! The clocks of the numbered occurrences of a declaration.

ghost use Rattle.std.specs.Prelude.{◌≡◌, ◌∷◌, [], IfOk, flat_map, map};
ghost use Rattle.lus_tree.specs.View.{contract_item_view, definition_view, item_view, named_view};
ghost use Rattle.lus_tree.specs.View.{expr_view, exprs_view};
ghost use Rattle.lus_meaning.specs.Occurrences.{constant_texts, contract_statement_texts, statement_texts, texts};
ghost use Rattle.lus_meaning.specs.Occurrences.{on_base, on_clock};
ghost use Rattle.lus_meaning.specs.Scene.{base, contract_statements};
ghost use Rattle.lus_streams.specs.Clocks.{clock_seen};
ghost use Rattle.lus_streams.specs.Names.{names_view};
ghost use Rattle.lus_clocks.specs.Program.{KeepsOf};
ghost use Rattle.lus_clocks.specs.Sought.{clock_at_texts, import_at};
ghost use Rattle.lus_clocks.specs.Table.{Writes};

use crate::table::Table;
use crate::write::write;
use lus_streams::clock::Clock;
use lus_streams::lookup::side_clock;
use lus_streams::names::Names;
use lus_tree::{ContractItem, Definition, Expr, Item, Named};
use std::alloc::{AllocError, Global};

/// Writes those of an expression of an item.
#[tactic(auto, using(crate::proofs::Elses::or_else_none))]
fn in_text(
    alloc: Global,
    names: Names<'_, '_>,
    table: &mut Table,
    clock: Clock<'_>,
    e: &Expr,
) -> Result<(), AllocError>
    ensures { IfOk result (λ _. Writes table.old table.new (λ s. clock_at_texts (names_view names.entry) s
        ((on_clock (clock_seen clock.entry), expr_view e.now) ∷ []))) }
{
    write(alloc, names, table, clock, e)
}

/// Writes those of expressions with labels.
fn in_labelled(
    alloc: Global,
    names: Names<'_, '_>,
    table: &mut Table,
    all: &[Named],
) -> Result<(), AllocError>
    ensures { IfOk result (λ _. Writes table.old table.new
        (λ s. clock_at_texts (names_view names.entry) s (on_base (map named_view all.now)))) }
{
    for named in all {
        in_text(alloc, names, table, Clock::Base, &named.value)?;
    }
    Ok(())
}

/// Writes those of the arguments of an import.
fn in_arguments(
    alloc: Global,
    names: Names<'_, '_>,
    table: &mut Table,
    all: &[Expr],
) -> Result<(), AllocError>
    ensures { IfOk result (λ _. Writes table.old table.new
        (λ s. clock_at_texts (names_view names.entry) s (map (λ a. (on_clock base, a)) (exprs_view all.now)))) }
{
    for argument in all {
        in_text(alloc, names, table, Clock::Base, argument)?;
    }
    Ok(())
}

/// Writes those of constants.
fn in_constants(
    alloc: Global,
    names: Names<'_, '_>,
    table: &mut Table,
    all: &[Definition],
) -> Result<(), AllocError>
    ensures { IfOk result (λ _. Writes table.old table.new
        (λ s. clock_at_texts (names_view names.entry) s (constant_texts (map definition_view all.now)))) }
{
    for definition in all {
        in_text(alloc, names, table, Clock::Base, &definition.value)?;
    }
    Ok(())
}

/// Writes those of an item of a contract.
#[tactic(auto, using(crate::proofs::Seeks::texts_append))]
fn in_contract_item(
    alloc: Global,
    names: Names<'_, '_>,
    table: &mut Table,
    item: &ContractItem,
) -> Result<(), AllocError>
    ensures { IfOk result (λ _. Writes table.old table.new
        (λ s. clock_at_texts (names_view names.entry) s (contract_statement_texts (contract_item_view item.now)))) }
{
    match item {
        ContractItem::Assume(assumed) => in_text(alloc, names, table, Clock::Base, &assumed.value),
        ContractItem::Guarantee(guaranteed) => {
            in_text(alloc, names, table, Clock::Base, &guaranteed.value)
        }
        ContractItem::Ghost(_, e) => in_text(alloc, names, table, Clock::Base, e),
        ContractItem::Constant(definition) => {
            in_text(alloc, names, table, Clock::Base, &definition.value)
        }
        ContractItem::Mode(_, conditions, promises) => {
            in_labelled(alloc, names, table, conditions)?;
            in_labelled(alloc, names, table, promises)
        }
        ContractItem::Import(_, _, values, _) => in_arguments(alloc, names, table, values),
    }
}

/// Writes those of the items of a contract.
fn in_contract(
    alloc: Global,
    names: Names<'_, '_>,
    table: &mut Table,
    items: &[ContractItem],
) -> Result<(), AllocError>
    ensures { IfOk result (λ _. Writes table.old table.new (λ s. clock_at_texts (names_view names.entry) s
        (flat_map contract_statement_texts (map contract_item_view items.now)))) }
{
    for item in items {
        in_contract_item(alloc, names, table, item)?;
    }
    Ok(())
}

/// Writes those of an item of a body.
fn in_statement(
    alloc: Global,
    names: Names<'_, '_>,
    table: &mut Table,
    item: &Item,
) -> Result<(), AllocError>
    ensures { IfOk result (λ _. Writes table.old table.new (λ s. clock_at_texts (names_view names.entry) s
        (statement_texts (names_view names.entry) (item_view item.now)))) }
{
    match item {
        Item::Equation(words, e) => in_text(alloc, names, table, side_clock(names, words), e),
        Item::Assert(e) => in_text(alloc, names, table, Clock::Base, e),
        Item::Property(property) => in_text(alloc, names, table, Clock::Base, &property.value),
        Item::Main(_) => Ok(()),
    }
}

/// Writes those of the items of a body.
fn in_body(
    alloc: Global,
    names: Names<'_, '_>,
    table: &mut Table,
    items: &[Item],
) -> Result<(), AllocError>
    ensures { IfOk result (λ _. Writes table.old table.new (λ s. clock_at_texts (names_view names.entry) s
        (flat_map (statement_texts (names_view names.entry)) (map item_view items.now)))) }
{
    for item in items {
        in_statement(alloc, names, table, item)?;
    }
    Ok(())
}

/// Writes the clock of an import, where the item is one: imports run on the base clock.
fn in_import(alloc: Global, table: &mut Table, item: &ContractItem) -> Result<(), AllocError>
    ensures { IfOk result (λ _. Writes table.old table.new (λ s. import_at s (contract_item_view item.now ∷ []))) }
{
    if let ContractItem::Import(number, _, _, _) = item {
        table.call(alloc, *number, Clock::Base)?;
    }
    Ok(())
}

/// Writes the clocks of imports.
fn in_imports(alloc: Global, table: &mut Table, items: &[ContractItem]) -> Result<(), AllocError>
    ensures { IfOk result (λ _. Writes table.old table.new (λ s. import_at s (map contract_item_view items.now))) }
{
    for item in items {
        in_import(alloc, table, item)?;
    }
    Ok(())
}

/// Writes those of all expressions of a declaration.
#[tactic(auto, using(crate::proofs::Seeks::texts_append))]
fn in_texts(alloc: Global, names: Names<'_, '_>, table: &mut Table) -> Result<(), AllocError>
    ensures { IfOk result (λ _. Writes table.old table.new
        (λ s. clock_at_texts (names_view names.entry) s (texts (names_view names.entry)))) }
{
    in_contract(alloc, names, table, names.owner.contract())?;
    in_constants(alloc, names, table, names.owner.constants())?;
    in_body(alloc, names, table, names.owner.body())
}

/// The clocks of a declaration's numbered occurrences.
///
/// # Errors
///
/// Want of memory.
#[tactic(auto, using(crate::proofs::Seeks::occurrence_is))]
pub(crate) fn table_of(alloc: Global, names: Names<'_, '_>) -> Result<Table, AllocError>
    ensures { IfOk result (λ t. KeepsOf t (names_view names.entry)) }
{
    let mut table = Table::new(alloc);
    in_texts(alloc, names, &mut table)?;
    in_imports(alloc, &mut table, names.owner.contract())?;
    Ok(table)
}
