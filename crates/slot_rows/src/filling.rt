//! Filling the table.

ghost use Rattle.std.specs.Prelude.{◌≡◌, ◌++◌, ◌∷◌, [], map, replicate, suc, IfOk, OnOk};
ghost use Rattle.lus_meaning.specs.Value.{absent};
ghost use Rattle.slot_values.specs.Evaluated.{slot_view};
ghost use Rattle.slot_sources.specs.Source.{source_view};
ghost use Rattle.slot_sources.specs.Rows.{brought_first};
ghost use Rattle.slot_rows.specs.InTurn.{AreTurns};
ghost use Rattle.slot_rows.specs.Table.{brought_to, closed, filled, first_values, next_values, row_at, row_view, rows, slots_of, table_view};

use crate::bringing::bring_next;
use crate::chosen::Chosen;
use crate::giving::give_value;
use crate::table::{Row, Table};
use crate::turns::Turns;
use slot_sources::Source;
use slot_values::SlotValue;
use std::alloc::{AllocError, Global};

/// Gives each slot its value, in turn.
#[tactic(auto, using(crate::proofs::InTurn::filled_by_turns))]
fn fill_row<C: Chosen>(turns: &Turns<'_>, chosen: &C, instant: u32, row: &mut Row)
    requires { AreTurns turns.now }
    ensures { row_view row.new ≡ filled (C.choices chosen.now) (map source_view turns.now.sources.now) instant
        (row_view row.old) turns.now.order.now }
{
    for turn in &turns.given {
        give_value(turn, chosen, instant, row);
    }
}

/// What is brought to the first instant, of a slot.
fn first_value<C: Chosen>(source: &Source, chosen: &C, slot: usize) -> SlotValue
    ensures { slot_view result ≡ brought_first ((C.choices chosen.now).first slot) (source_view source.now) }
{
    match source {
        Source::Remembered(_, _) => SlotValue::of(chosen.first(slot)),
        Source::Starting(_) => SlotValue::Truth(true),
        Source::Held { default, .. } => SlotValue::of(*default),
        Source::Always
        | Source::Runs(_)
        | Source::RunsWhile(_, _)
        | Source::Same(_)
        | Source::Given(_, _)
        | Source::Argument(_, _, _)
        | Source::Listed(_)
        | Source::Unread => SlotValue::Absent,
    }
}

/// What is brought to the first instant.
fn first_values<C: Chosen>(
    alloc: Global,
    sources: &[Source],
    chosen: &C,
) -> Result<Vec<SlotValue>, AllocError>
    ensures { IfOk result (λ v. map slot_view v.items ≡ first_values (C.choices chosen.now) 0
        (map source_view sources.now)) }
{
    let mut values = Vec::with_capacity(alloc, sources.len())?;
    for source in sources {
        let value = first_value(source, chosen, values.len());
        values.push(value)?;
    }
    Ok(values)
}

/// A row of so many slots that have no value.
#[tactic(auto, using(crate::proofs::InTurn::absent_each))]
fn no_values(alloc: Global, count: usize) -> Result<Vec<SlotValue>, AllocError>
    ensures { IfOk result (λ v. map slot_view v.items ≡ replicate count absent) }
{
    let mut values = Vec::with_capacity(alloc, count)?;
    values.resize(count, SlotValue::Absent)?;
    Ok(values)
}

/// What a row brings to the next instant. It counts as outside where that does.
#[tactic(auto, using(crate::proofs::InTurn::brought_by_turns, crate::proofs::InTurn::outside_by_turns))]
fn next_values(
    alloc: Global,
    turns: &Turns<'_>,
    row: &mut Row,
) -> Result<Vec<SlotValue>, AllocError>
    requires { AreTurns turns.now }
    ensures values { IfOk result (λ v. map slot_view v.items
        ≡ next_values (slots_of (row_view row.old).values) 0 (map source_view turns.now.sources.now)) }
    ensures outside { OnOk result (row_view row.new
        ≡ closed (map source_view turns.now.sources.now) (row_view row.old)) }
{
    let mut values = no_values(alloc, turns.sources.len())?;
    for turn in &turns.brought {
        let outside = bring_next(turn, row, &mut values);
        row.outside |= outside;
    }
    Ok(values)
}

/// Adds the row of an instant to which this is brought; and what it brings to the next one.
fn push_row<C: Chosen>(
    alloc: Global,
    turns: &Turns<'_>,
    chosen: &C,
    values: Vec<SlotValue>,
    rows: &mut Vec<Row>,
    instant: u32,
) -> Result<Vec<SlotValue>, AllocError>
    requires turns { AreTurns turns.now }
    requires values { map slot_view values.items ≡ brought_to (C.choices chosen.now)
        (map source_view turns.now.sources.now) turns.now.order.now instant }
    ensures values { IfOk result (λ v. map slot_view v.items ≡ brought_to (C.choices chosen.now)
        (map source_view turns.now.sources.now) turns.now.order.now (suc instant)) }
    ensures pushed { OnOk result (map row_view rows.new.items ≡ map row_view rows.old.items
        ++ row_at (C.choices chosen.now) (map source_view turns.now.sources.now) turns.now.order.now instant ∷ []) }
{
    let mut row = Row {
        values,
        outside: false,
    };
    fill_row(turns, chosen, instant, &mut row);
    let next = next_values(alloc, turns, &mut row)?;
    rows.push(row)?;
    Ok(next)
}

/// The rows of so many instants, whose slots get their values in turn.
fn fill_rows<C: Chosen>(
    alloc: Global,
    turns: &Turns<'_>,
    chosen: &C,
    instants: u32,
) -> Result<Vec<Row>, AllocError>
    requires { AreTurns turns.now }
    ensures { IfOk result (λ v. map row_view v.items ≡ rows (C.choices chosen.now)
        (map source_view turns.now.sources.now) turns.now.order.now instants) }
{
    let mut rows = Vec::new(alloc);
    let mut values = first_values(alloc, turns.sources, chosen)?;
    for instant in 0..instants {
        values = push_row(alloc, turns, chosen, values, &mut rows, instant)?;
    }
    Ok(rows)
}

/// The table of so many instants. The slots of a row get their values in that order, each from its source;
/// those to which theirs are brought are passed over.
///
/// # Errors
///
/// Want of memory.
pub fn fill<C: Chosen>(
    alloc: Global,
    sources: &[Source],
    order: &[usize],
    chosen: &C,
    instants: u32,
) -> Result<Table, AllocError>
    ensures { IfOk result (λ t. table_view t
        ≡ rows (C.choices chosen.now) (map source_view sources.now) order.now instants) }
{
    let turns = Turns::of(alloc, sources, order)?;
    let rows = fill_rows(alloc, &turns, chosen, instants)?;
    Ok(Table { rows })
}
