//! Evaluation by values alone.

ghost use Rattle.std.specs.Prelude.{◌≡◌, Some};
ghost use Rattle.lus_meaning.specs.Value.{choose};
ghost use Rattle.lus_meaning.specs.TraceView.{entry_view};
ghost use Rattle.slot_values.specs.Resolution.{resolved_view};
ghost use Rattle.slot_values.specs.Evaluated.{only_where, slot_view, slots_in};
ghost use Rattle.slot_values.specs.Outcome.{outcome_view};
ghost use Rattle.slot_values.specs.Quickly.{beside, quickly};

use crate::outcome::Outcome;
use crate::quick_operation::{
    chosen_of, kept_where, minus_of, not_of, with_number, with_truth, within_both,
};
use crate::resolved::Resolved;
use crate::slot::{SlotValue, chosen_value, is_present, is_truth, slot_value};
use lus_meaning::Value;

/// What a value comes to where it is wanted.
fn outcome_if(on: bool, value: Option<Value>) -> Outcome
    ensures { outcome_view result ≡ Some (only_where on (entry_view value)) }
{
    if !on {
        return Outcome::Absent;
    }
    match value {
        Some(Value::Truth(b)) => Outcome::Truth(b),
        Some(Value::Whole(n)) => Outcome::Whole(n),
        None => Outcome::Absent,
    }
}

/// What the value of a slot comes to where that is wanted.
fn outcome_where(on: bool, value: SlotValue) -> Outcome
    ensures { outcome_view result ≡ Some (only_where on (slot_view value)) }
{
    if !on {
        return Outcome::Absent;
    }
    match value {
        SlotValue::Truth(b) => Outcome::Truth(b),
        SlotValue::Whole(n) => Outcome::Whole(n),
        SlotValue::Absent => Outcome::Absent,
    }
}

/// What a slot comes to where that is wanted.
fn slot_outcome(on: bool, row: &[SlotValue], slot: u32) -> Outcome
    ensures { outcome_view result ≡ Some (only_where on (slots_in row.now slot)) }
{
    if on && (slot as usize) < row.len() {
        match &row[slot as usize] {
            SlotValue::Truth(b) => Outcome::Truth(*b),
            SlotValue::Whole(n) => Outcome::Whole(*n),
            SlotValue::Absent => Outcome::Absent,
        }
    } else {
        Outcome::Absent
    }
}

/// The value of what is held, unless the condition of its call has an operation outside 128 bits.
fn latest(
    condition: Outcome,
    on: bool,
    row: &[SlotValue],
    beat: u32,
    output: u32,
    held: u32,
) -> Outcome
    ensures { outcome_view result ≡ beside (outcome_view condition)
        (only_where on (choose (slots_in row.now beat) (slots_in row.now output) (slots_in row.now held))) }
{
    match condition {
        Outcome::Outside => Outcome::Outside,
        Outcome::Absent | Outcome::Truth(_) | Outcome::Whole(_) => outcome_where(
            on,
            chosen_value(
                slot_value(row, beat),
                slot_value(row, output),
                slot_value(row, held),
            ),
        ),
    }
}

/// What an expression comes to. Most operands are slots and literals, for which no walk begins.
#[cycle(quick)]
#[inline(always)]
pub(crate) fn quick(e: &Resolved, on: bool, row: &[SlotValue]) -> Outcome
    ensures { outcome_view result ≡ quickly (slots_in row.now) on (resolved_view e.now) }
{
    match e {
        Resolved::Slot(slot) => slot_outcome(on, row, *slot),
        Resolved::Known(value) => outcome_if(on, *value),
        Resolved::Not(_)
        | Resolved::Minus(_, _)
        | Resolved::Binary(_, _, _, _)
        | Resolved::If(_, _, _)
        | Resolved::Arrow(_, _, _)
        | Resolved::When(_, _, _)
        | Resolved::Merge(_, _, _)
        | Resolved::Latest(_, _, _, _) => {
            // A walk has a place of its own to answer in, so that slots and literals need none.
            let walked = walk(e, on, row);
            walked
        }
    }
}

#[cycle(quick)]
#[tactic(auto, using(crate::proofs::Mismatched::mismatched))]
fn walk(e: &Resolved, on: bool, row: &[SlotValue]) -> Outcome
    ensures { outcome_view result ≡ quickly (slots_in row.now) on (resolved_view e.now) }
{
    match e {
        Resolved::Known(value) => outcome_if(on, *value),
        Resolved::Slot(slot) => slot_outcome(on, row, *slot),
        Resolved::Not(a) => not_of(quick(a, on, row)),
        Resolved::Minus(_, a) => minus_of(quick(a, on, row)),
        // What comes next is chosen by the first operand before the second one is read: so little is kept meanwhile.
        Resolved::Binary(_, operator, a, b) => match quick(a, on, row) {
            Outcome::Truth(a) => with_truth(*operator, a, quick(b, on, row)),
            Outcome::Whole(a) => with_number(*operator, a, quick(b, on, row)),
            Outcome::Absent => kept_where(false, quick(b, on, row)),
            Outcome::Outside => Outcome::Outside,
        },
        Resolved::If(c, a, b) => match quick(c, on, row) {
            Outcome::Truth(true) => within_both(quick(a, on, row), quick(b, on, row)),
            Outcome::Truth(false) => within_both(quick(b, on, row), quick(a, on, row)),
            Outcome::Absent => {
                chosen_of(SlotValue::Absent, quick(a, on, row), quick(b, on, row))
            }
            Outcome::Whole(n) => {
                chosen_of(SlotValue::Whole(n), quick(a, on, row), quick(b, on, row))
            }
            Outcome::Outside => Outcome::Outside,
        },
        Resolved::Arrow(start, a, b) => match slot_value(row, *start) {
            SlotValue::Truth(true) => within_both(quick(a, on, row), quick(b, on, row)),
            SlotValue::Truth(false) => within_both(quick(b, on, row), quick(a, on, row)),
            other => chosen_of(other, quick(a, on, row), quick(b, on, row)),
        },
        Resolved::When(slot, wanted, a) => {
            let clock = slot_value(row, *slot);
            let a = quick(a, is_present(clock), row);
            kept_where(is_truth(*wanted, clock), a)
        }
        Resolved::Merge(slot, a, b) => {
            let clock = slot_value(row, *slot);
            let a = quick(a, is_truth(true, clock), row);
            let b = quick(b, is_truth(false, clock), row);
            chosen_of(clock, a, b)
        }
        Resolved::Latest(condition, beat, output, held) => {
            let condition = quick(condition, on, row);
            latest(condition, on, row, *beat, *output, *held)
        }
    }
}
