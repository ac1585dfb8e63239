//! Giving a slot of a row its value.

ghost use Rattle.std.specs.Prelude.{◌≡◌, ◌&&◌, Some, false, map, option_map, set, true};
ghost use Rattle.lus_meaning.specs.Value.{absent, flag, is};
ghost use Rattle.slot_values.specs.Resolution.{resolved_view};
ghost use Rattle.slot_values.specs.Evaluated.{only_where, outside, slot_view, worth};
ghost use Rattle.slot_values.specs.Outcome.{if_none, outcome_view, value_within};
ghost use Rattle.slot_sources.specs.Source.{source_view};
ghost use Rattle.slot_rows.specs.Stillness.{is_plain, is_still};
ghost use Rattle.slot_rows.specs.Table.{row_view, slots_of, with_outcome, with_value};

use crate::chosen::Chosen;
use crate::slot::{both_true, no_value};
use crate::table::Row;
use crate::turn::Turn;
use slot_sources::Source;
use slot_values::{Outcome, Resolved, SlotValue};

/// Writes a value, if the row has that slot.
pub(crate) fn write(values: &mut Vec<SlotValue>, slot: usize, value: SlotValue)
    ensures { map slot_view values.new.items ≡ set (map slot_view values.old.items) slot (slot_view value) }
{
    if slot < values.len() {
        values[slot] = value;
    }
}

/// Gives a slot a value.
#[tactic(auto, using(crate::proofs::Slots::noted_outside))]
fn give(row: &mut Row, slot: usize, value: SlotValue)
    ensures { row_view row.new ≡ with_outcome slot (Some (slot_view value)) (row_view row.old) }
{
    write(&mut row.values, slot, value);
}

/// Gives a slot what another one has, or nothing behind the end of the row.
#[inline(always)]
fn copy(row: &mut Row, from: usize, slot: usize)
    ensures { row_view row.new ≡ with_outcome slot (Some (slots_of (row_view row.old).values from)) (row_view row.old) }
{
    if from < row.values.len() {
        let value = row.values[from];
        give(row, slot, value);
    } else {
        give(row, slot, SlotValue::Absent);
    }
}

/// Gives a slot what an expression comes to: no value where an operation is outside 128 bits, which is noted.
#[tactic(auto, using(crate::proofs::Slots::noted_outside))]
fn put(row: &mut Row, slot: usize, outcome: Outcome)
    ensures { row_view row.new ≡ with_outcome slot (outcome_view outcome) (row_view row.old) }
{
    match outcome {
        Outcome::Outside => {
            write(&mut row.values, slot, SlotValue::Absent);
            row.outside = true;
        }
        Outcome::Absent => give(row, slot, SlotValue::Absent),
        Outcome::Truth(b) => give(row, slot, SlotValue::Truth(b)),
        Outcome::Whole(n) => give(row, slot, SlotValue::Whole(n)),
    }
}

/// Gives a slot what an expression comes to, which is evaluated.
#[inline(always)]
fn give_evaluated(e: &Resolved, on: bool, row: &mut Row, slot: usize)
    ensures { row_view row.new ≡ with_outcome slot
        (value_within (slots_of (row_view row.old).values) on (resolved_view e.now)) (row_view row.old) }
{
    let outcome = row.outcome(e, on);
    put(row, slot, outcome);
}

/// Gives a slot what an expression comes to off its clock. What is still there is not evaluated.
#[inline(never)]
#[tactic(auto, using(crate::proofs::Resting::off_comes_to))]
fn give_off(e: &Resolved, still: bool, row: &mut Row, slot: usize)
    requires { still ≡ is_still (resolved_view e.now) }
    ensures { row_view row.new ≡ with_outcome slot
        (value_within (slots_of (row_view row.old).values) false (resolved_view e.now)) (row_view row.old) }
{
    if still {
        give(row, slot, SlotValue::Absent);
    } else {
        give_evaluated(e, false, row, slot);
    }
}

/// Gives a slot what an expression comes to on its clock. What another slot has is taken as it is.
#[inline(always)]
fn give_on(e: &Resolved, row: &mut Row, slot: usize)
    ensures { row_view row.new ≡ with_outcome slot
        (value_within (slots_of (row_view row.old).values) true (resolved_view e.now)) (row_view row.old) }
{
    match e {
        Resolved::Slot(other) => copy(row, *other as usize, slot),
        Resolved::Known(_)
        | Resolved::Not(_)
        | Resolved::Minus(_, _)
        | Resolved::Binary(_, _, _, _)
        | Resolved::If(_, _, _)
        | Resolved::Arrow(_, _, _)
        | Resolved::When(_, _, _)
        | Resolved::Merge(_, _, _)
        | Resolved::Latest(_, _, _, _) => give_evaluated(e, true, row, slot),
    }
}

/// Gives a slot what an expression comes to on its clock or off it.
#[inline(always)]
fn give_worth(e: &Resolved, still: bool, on: bool, row: &mut Row, slot: usize)
    requires { still ≡ is_still (resolved_view e.now) }
    ensures { row_view row.new ≡ with_outcome slot
        (value_within (slots_of (row_view row.old).values) on (resolved_view e.now)) (row_view row.old) }
{
    if on {
        give_on(e, row, slot);
    } else {
        give_off(e, still, row, slot);
    }
}

/// Gives a slot nothing, but notes an operation outside 128 bits in an expression.
fn give_nothing(e: &Resolved, on: bool, row: &mut Row, slot: usize)
    ensures { row_view row.new ≡ with_outcome slot
        (if_none (outside (slots_of (row_view row.old).values) on (resolved_view e.now)) absent) (row_view row.old) }
{
    let outcome = no_value(row.outcome(e, on));
    put(row, slot, outcome);
}

/// Gives a slot the value of an argument, which it has only where its frame's beat is true; an operation outside 128
/// bits is noted all the same.
#[tactic(auto, using(crate::proofs::Resting::off_within, crate::proofs::Resting::plain_within))]
fn give_argument(turn: &Turn<'_>, beat: bool, e: &Resolved, on: bool, row: &mut Row)
    requires plain { turn.now.is_plain ≡ is_plain (resolved_view e.now) }
    requires still { turn.now.is_still ≡ is_still (resolved_view e.now) }
    ensures { row_view row.new ≡ with_outcome turn.now.slot
        (if_none (outside (slots_of (row_view row.old).values) on (resolved_view e.now))
        (only_where beat (worth (slots_of (row_view row.old).values) on (resolved_view e.now)))) (row_view row.old) }
{
    if beat {
        give_worth(e, turn.is_still, on, row, turn.slot);
    } else if turn.is_plain || turn.is_still && !on {
        give(row, turn.slot, SlotValue::Absent);
    } else {
        give_nothing(e, on, row, turn.slot);
    }
}

/// What an expression comes to, as a condition beside a clock. What is still off its clock is not evaluated there.
#[tactic(auto, using(crate::proofs::Resting::off_comes_to))]
fn condition(e: &Resolved, still: bool, on: bool, row: &Row) -> Outcome
    requires { still ≡ is_still (resolved_view e.now) }
    ensures { outcome_view result ≡ option_map (λ v. flag (on && is true v))
        (value_within (slots_of (row_view row.now).values) on (resolved_view e.now)) }
{
    if still && !on {
        Outcome::Truth(false)
    } else {
        both_true(on, row.outcome(e, on))
    }
}

/// What a trace lists of a slot, on its clock.
fn listed_if<C: Chosen>(on: bool, chosen: &C, instant: u32, slot: usize) -> SlotValue
    ensures { slot_view result ≡ only_where on ((C.choices chosen.now).at slot instant) }
{
    if on {
        SlotValue::of(chosen.listed(slot, instant))
    } else {
        SlotValue::Absent
    }
}

/// Gives a slot the value of its source by the row so far. A memory, a start and what is held have what was brought to
/// them.
pub(crate) fn give_value<C: Chosen>(turn: &Turn<'_>, chosen: &C, instant: u32, row: &mut Row)
    ensures { row_view row.new ≡ with_value (C.choices chosen.now) instant turn.now.slot
        (Some (source_view turn.now.source.now)) (row_view row.old) }
{
    let slot = turn.slot;
    match turn.source {
        Source::Given(clock, e) => {
            let on = row.is_running(clock);
            give_worth(e, turn.is_still, on, row, slot);
        }
        Source::Argument(beat, clock, e) => {
            let on = row.is_running(clock);
            let beat = row.is_true(*beat as usize);
            give_argument(turn, beat, e, on, row);
        }
        Source::Always => give(row, slot, SlotValue::Truth(true)),
        Source::Runs(clock) => {
            let on = row.is_running(clock);
            give(row, slot, SlotValue::Truth(on));
        }
        Source::RunsWhile(clock, e) => {
            let on = row.is_running(clock);
            let outcome = condition(e, turn.is_still, on, row);
            put(row, slot, outcome);
        }
        Source::Same(other) => copy(row, *other as usize, slot),
        Source::Listed(clock) => {
            let on = row.is_running(clock);
            give(row, slot, listed_if(on, chosen, instant, slot));
        }
        Source::Remembered(_, _) | Source::Starting(_) | Source::Held { .. } | Source::Unread => {}
    }
}
