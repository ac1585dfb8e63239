//! What a row brings to the next instant.

ghost use Rattle.std.specs.Prelude.{◌≡◌, cond, is_none, map, option_map, set, unwrap_or};
ghost use Rattle.lus_meaning.specs.Value.{absent};
ghost use Rattle.slot_values.specs.Resolution.{resolved_view};
ghost use Rattle.slot_values.specs.Evaluated.{outside, slot_view, worth};
ghost use Rattle.slot_values.specs.Outcome.{outcome_view};
ghost use Rattle.slot_sources.specs.Source.{source_view};
ghost use Rattle.slot_sources.specs.Rows.{outside_next};
ghost use Rattle.slot_rows.specs.Stillness.{is_still};
ghost use Rattle.slot_rows.specs.Table.{is_any, next_value, row_view, slots_of, unless};

use crate::giving::write;
use crate::table::Row;
use crate::turn::Turn;
use slot_sources::Source;
use slot_values::{Outcome, Resolved, SlotValue};

/// What a slot of the row has, or none, is brought to a slot.
#[inline(always)]
fn bring_copy(row: &Row, from: usize, slot: usize, values: &mut Vec<SlotValue>)
    ensures { map slot_view values.new.items ≡ set (map slot_view values.old.items) slot
        (slots_of (row_view row.now).values from) }
{
    if from < row.values.len() {
        write(values, slot, row.values[from]);
    } else {
        write(values, slot, SlotValue::Absent);
    }
}

/// A new value is brought to a slot where a clock is on, else the one that it has.
fn bring_either(on: bool, new: SlotValue, row: &Row, slot: usize, values: &mut Vec<SlotValue>)
    ensures { map slot_view values.new.items ≡ set (map slot_view values.old.items) slot
        (cond on (slot_view new) (slots_of (row_view row.now).values slot)) }
{
    if on {
        write(values, slot, new);
    } else {
        bring_copy(row, slot, slot, values);
    }
}

/// The same of what an expression comes to: nothing where an operation is outside 128 bits, on the clock or off it.
/// Whether one is.
fn bring_renewed(
    on: bool,
    new: Outcome,
    row: &Row,
    slot: usize,
    values: &mut Vec<SlotValue>,
) -> bool
    ensures outside { result ≡ is_none (outcome_view new) }
    ensures brought { map slot_view values.new.items ≡ set (map slot_view values.old.items) slot
        (unwrap_or (option_map (λ v. cond on v (slots_of (row_view row.now).values slot)) (outcome_view new)) absent) }
{
    match new {
        Outcome::Outside => {
            write(values, slot, SlotValue::Absent);
            return true;
        }
        Outcome::Absent => bring_either(on, SlotValue::Absent, row, slot, values),
        Outcome::Truth(b) => bring_either(on, SlotValue::Truth(b), row, slot, values),
        Outcome::Whole(n) => bring_either(on, SlotValue::Whole(n), row, slot, values),
    }
    false
}

/// The same of an expression. What another slot has is taken as it is, and what is still off its clock is not evaluated
/// there.
#[inline(always)]
#[tactic(auto, using(crate::proofs::Resting::off_within))]
fn bring_worth(
    e: &Resolved,
    still: bool,
    on: bool,
    row: &Row,
    slot: usize,
    values: &mut Vec<SlotValue>,
) -> bool
    requires { still ≡ is_still (resolved_view e.now) }
    ensures outside { result ≡ is_any (outside (slots_of (row_view row.now).values) on (resolved_view e.now)) }
    ensures brought { map slot_view values.new.items ≡ set (map slot_view values.old.items) slot
        (unless (outside (slots_of (row_view row.now).values) on (resolved_view e.now))
        (cond on (worth (slots_of (row_view row.now).values) on (resolved_view e.now))
        (slots_of (row_view row.now).values slot))) }
{
    match e {
        Resolved::Slot(other) => {
            let from = if on { *other as usize } else { slot };
            bring_copy(row, from, slot, values);
            false
        }
        Resolved::Known(_)
        | Resolved::Not(_)
        | Resolved::Minus(_, _)
        | Resolved::Binary(_, _, _, _)
        | Resolved::If(_, _, _)
        | Resolved::Arrow(_, _, _)
        | Resolved::When(_, _, _)
        | Resolved::Merge(_, _, _)
        | Resolved::Latest(_, _, _, _) => {
            if still && !on {
                bring_copy(row, slot, slot, values);
                false
            } else {
                bring_renewed(on, row.outcome(e, on), row, slot, values)
            }
        }
    }
}

/// Brings to the slot of a turn its value at the next instant. Whether an operation is outside 128 bits.
pub(crate) fn bring_next(turn: &Turn<'_>, row: &Row, values: &mut Vec<SlotValue>) -> bool
    ensures outside { result ≡ is_any (outside_next (slots_of (row_view row.now).values)
        (source_view turn.now.source.now)) }
    ensures brought { map slot_view values.new.items ≡ set (map slot_view values.old.items) turn.now.slot
        (next_value (slots_of (row_view row.now).values) turn.now.slot (source_view turn.now.source.now)) }
{
    let slot = turn.slot;
    match turn.source {
        Source::Remembered(clock, e) => {
            return bring_worth(e, turn.is_still, row.is_running(clock), row, slot, values);
        }
        Source::Starting(clock) => {
            let first = row.is_true(slot);
            write(
                values,
                slot,
                SlotValue::Truth(first && !row.is_running(clock)),
            );
        }
        Source::Held { beat, output, .. } => {
            let new = row.is_true(*beat as usize);
            let from = if new { *output as usize } else { slot };
            bring_copy(row, from, slot, values);
        }
        Source::Always
        | Source::Runs(_)
        | Source::RunsWhile(_, _)
        | Source::Same(_)
        | Source::Given(_, _)
        | Source::Argument(_, _, _)
        | Source::Listed(_)
        | Source::Unread => write(values, slot, SlotValue::Absent),
    }
    false
}
