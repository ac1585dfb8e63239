//! The table of values.

ghost use Rattle.std.specs.Prelude.{◌≡◌, map, length, true};
ghost use Rattle.lus_meaning.specs.Value.{is};
ghost use Rattle.lus_meaning.specs.TraceView.{entry_view};
ghost use Rattle.slot_values.specs.Evaluated.{slot_view};
ghost use Rattle.slot_values.specs.Outcome.{outcome_view, value_within};
ghost use Rattle.slot_values.specs.Resolution.{resolved_view};
ghost use Rattle.slot_sources.specs.Rows.{is_on};
ghost use Rattle.slot_rows.specs.Table.{row_in, row_view, slots_of, table_view, value_in};

use crate::slot::{is_on, slot_value};
use lus_meaning::Value;
use slot_sources::Switch;
use slot_values::{Outcome, Resolved, SlotValue, is_truth, value_within};

/// The values of an instant, by the numbers of their slots.
#[derive(Drop)]
pub(crate) struct Row {
    pub(crate) values: Vec<SlotValue>,
    /// Whether an operation was outside 128 bits.
    pub(crate) outside: bool,
}

impl Row {
    /// Whether a clock is on.
    pub(crate) fn is_running(&self, clock: &Switch) -> bool
        ensures { result ≡ is_on (slots_of (row_view self.now).values) clock.now }
    {
        is_on(clock, &self.values)
    }

    /// Whether a slot is true.
    pub(crate) fn is_true(&self, slot: usize) -> bool
        ensures { result ≡ is true (slots_of (row_view self.now).values slot) }
    {
        is_truth(true, slot_value(&self.values, slot))
    }

    /// What an expression comes to.
    pub(crate) fn outcome(&self, e: &Resolved, on: bool) -> Outcome
        ensures { outcome_view result ≡ value_within (slots_of (row_view self.now).values) on (resolved_view e.now) }
    {
        value_within(e, on, &self.values)
    }
}

/// Row after row, an instant each.
#[derive(Drop)]
pub struct Table {
    pub(crate) rows: Vec<Row>,
}

impl Table {
    /// How many instants there are.
    pub fn instants(&self) -> usize
        ensures { result ≡ length (table_view self.now) }
    {
        self.rows.len()
    }

    /// The values of an instant, by the numbers of their slots; none behind the last instant.
    pub fn row(&self, instant: usize) -> &[SlotValue]
        ensures { map slot_view result.now ≡ (row_in (table_view self.now) instant).values }
    {
        if instant < self.rows.len() {
            &self.rows[instant].values
        } else {
            &[]
        }
    }

    /// The value of a slot at an instant; none where it is absent.
    pub fn value(&self, slot: usize, instant: usize) -> Option<Value>
        ensures { entry_view result ≡ value_in (table_view self.now) instant slot }
    {
        slot_value(self.row(instant), slot).value()
    }

    /// Whether at that instant an operation was outside 128 bits, in the value of a slot or in what is brought from it
    /// to the next instant.
    pub fn met_outside(&self, instant: usize) -> bool
        ensures { result ≡ (row_in (table_view self.now) instant).outside }
    {
        instant < self.rows.len() && self.rows[instant].outside
    }
}
