//! Truth in a row of values.

ghost use Rattle.std.specs.Prelude.{◌≡◌, true, map};
ghost use Rattle.slot_values.specs.Resolution.{resolved_view};
ghost use Rattle.slot_values.specs.Evaluated.{outside, slots_in};
ghost use Rattle.slot_rows.specs.Table.{is_any};
ghost use Rattle.slot_replay.specs.Conditions.{all_true, any_outside, is_true};

use slot_values::{Outcome, Resolved, SlotValue, value_within};

/// Whether a condition is true, and whether it has an operation outside 128 bits.
pub(crate) fn truth_in(condition: &Resolved, row: &[SlotValue]) -> (bool, bool)
    ensures truth { result.0 ≡ is_true (slots_in row.now) (resolved_view condition.now) }
    ensures outside { result.1 ≡ is_any (outside (slots_in row.now) true (resolved_view condition.now)) }
{
    match value_within(condition, true, row) {
        Outcome::Truth(b) => (b, false),
        Outcome::Absent | Outcome::Whole(_) => (false, false),
        Outcome::Outside => (false, true),
    }
}

/// Whether all of these are true, and whether one has an operation outside 128 bits.
pub(crate) fn truths_in(conditions: &[Resolved], row: &[SlotValue]) -> (bool, bool)
    ensures truth { result.0 ≡ all_true (slots_in row.now) (map resolved_view conditions.now) }
    ensures outside { result.1 ≡ any_outside (slots_in row.now) (map resolved_view conditions.now) }
{
    let mut all = true;
    let mut outside = false;
    for condition in conditions {
        let (truth, past) = truth_in(condition, row);
        all &= truth;
        outside |= past;
    }
    (all, outside)
}
