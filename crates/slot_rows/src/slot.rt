//! The values of slots, clocks and outcomes by the values of a row.

ghost use Rattle.std.specs.Prelude.{◌≡◌, ◌&&◌, false, option_map, true};
ghost use Rattle.lus_meaning.specs.Value.{flag, is};
ghost use Rattle.slot_values.specs.Evaluated.{only_where, slot_view, slots_in};
ghost use Rattle.slot_values.specs.Outcome.{outcome_view};
ghost use Rattle.slot_sources.specs.Rows.{is_on};

use slot_sources::Switch;
use slot_values::{Outcome, SlotValue, is_truth};

/// The value of a slot; none behind the end of the row.
pub(crate) fn slot_value(row: &[SlotValue], slot: usize) -> SlotValue
    ensures { slot_view result ≡ slots_in row.now slot }
{
    match row.get(slot) {
        Some(value) => *value,
        None => SlotValue::Absent,
    }
}

/// Whether a clock is on by the values of a row.
pub fn is_on(clock: &Switch, row: &[SlotValue]) -> bool
    ensures { result ≡ is_on (slots_in row.now) clock.now }
{
    is_truth(clock.wanted, slot_value(row, clock.slot as usize))
}

/// No value; but outside 128 bits where an outcome is that.
pub(crate) fn no_value(a: Outcome) -> Outcome
    ensures { outcome_view result ≡ option_map (only_where false) (outcome_view a) }
{
    match a {
        Outcome::Outside => Outcome::Outside,
        Outcome::Absent | Outcome::Truth(_) | Outcome::Whole(_) => Outcome::Absent,
    }
}

/// Whether a clock is on and a condition true.
pub(crate) fn both_true(on: bool, condition: Outcome) -> Outcome
    ensures { outcome_view result ≡ option_map (λ v. flag (on && is true v)) (outcome_view condition) }
{
    match condition {
        Outcome::Outside => Outcome::Outside,
        Outcome::Truth(b) => Outcome::Truth(on && b),
        Outcome::Absent | Outcome::Whole(_) => Outcome::Truth(false),
    }
}
