//! Evaluation.

ghost use Rattle.std.specs.Prelude.{◌≡◌};
ghost use Rattle.lus_meaning.specs.TraceView.{entry_view};
ghost use Rattle.lus_meaning.specs.Value.{choose};
ghost use Rattle.slot_values.specs.Resolution.{resolved_view};
ghost use Rattle.slot_values.specs.Evaluated.{answer_view, slots_in, only_where, evaluated};
ghost use Rattle.slot_values.specs.Outcome.{outcome_view, value_within};
ghost use Rattle.slot_values.specs.Stepwise.{stepwise};

use crate::operation::{chosen, combined, negated, opposite};
use crate::outcome::Outcome;
use crate::quick::quick;
use crate::resolved::{PastAt, Resolved};
use crate::slot::{SlotValue, is_present, is_truth, slot_value};
use lus_meaning::Value;

/// The value where that is wanted.
fn only_if(on: bool, value: Option<Value>) -> Option<Value>
    ensures { entry_view result ≡ only_where on (entry_view value) }
{
    if on { value } else { None }
}

/// The output where its beat is true, else what is held of it.
fn latest(row: &[SlotValue], beat: u32, output: u32, held: u32) -> Option<Value>
    ensures { entry_view result ≡ choose (slots_in row.now beat) (slots_in row.now output) (slots_in row.now held) }
{
    chosen(
        slot_value(row, beat).value(),
        slot_value(row, output).value(),
        slot_value(row, held).value(),
    )
}

#[cycle(walk)]
fn walk(e: &Resolved, on: bool, row: &[SlotValue]) -> Result<Option<Value>, PastAt>
    ensures { answer_view result ≡ stepwise (slots_in row.now) on (resolved_view e.now) }
{
    match e {
        Resolved::Known(value) => Ok(only_if(on, *value)),
        Resolved::Slot(slot) => Ok(only_if(on, slot_value(row, *slot).value())),
        Resolved::Not(a) => Ok(negated(walk(a, on, row)?)),
        Resolved::Minus(at, a) => opposite(*at, walk(a, on, row)?),
        Resolved::Binary(at, operator, a, b) => {
            let a = walk(a, on, row)?;
            let b = walk(b, on, row)?;
            combined(*at, *operator, a, b)
        }
        Resolved::If(c, a, b) => {
            let c = walk(c, on, row)?;
            let a = walk(a, on, row)?;
            let b = walk(b, on, row)?;
            Ok(chosen(c, a, b))
        }
        Resolved::Arrow(start, a, b) => {
            let a = walk(a, on, row)?;
            let b = walk(b, on, row)?;
            Ok(chosen(slot_value(row, *start).value(), a, b))
        }
        Resolved::When(slot, wanted, a) => {
            let clock = slot_value(row, *slot);
            let a = walk(a, is_present(clock), row)?;
            Ok(only_if(is_truth(*wanted, clock), a))
        }
        Resolved::Merge(slot, a, b) => {
            let clock = slot_value(row, *slot);
            let a = walk(a, is_truth(true, clock), row)?;
            let b = walk(b, is_truth(false, clock), row)?;
            Ok(chosen(clock.value(), a, b))
        }
        Resolved::Latest(condition, beat, output, held) => {
            walk(condition, on, row)?;
            Ok(only_if(on, latest(row, *beat, *output, *held)))
        }
    }
}

/// The value of an expression in the row of values of its frame's slots, where its own clock is on or not; none where
/// it is absent.
///
/// # Errors
///
/// The first of its operations, operands from left to right and before their operator, whose result is outside 128
/// bits, of those whose clock is on.
#[tactic(auto, using(crate::proofs::Stepwise::stepwise_is))]
pub fn evaluate(e: &Resolved, on: bool, row: &[SlotValue]) -> Result<Option<Value>, PastAt>
    ensures { answer_view result ≡ evaluated (slots_in row.now) on (resolved_view e.now) }
{
    match value_within(e, on, row) {
        Outcome::Outside => walk(e, on, row),
        Outcome::Absent => Ok(None),
        Outcome::Truth(b) => Ok(Some(Value::Truth(b))),
        Outcome::Whole(n) => Ok(Some(Value::Whole(n))),
    }
}

/// The value alone, where no operation has a result outside 128 bits.
#[tactic(auto, using(crate::proofs::Quickly::quickly_is))]
pub fn value_within(e: &Resolved, on: bool, row: &[SlotValue]) -> Outcome
    ensures { outcome_view result ≡ value_within (slots_in row.now) on (resolved_view e.now) }
{
    quick(e, on, row)
}
