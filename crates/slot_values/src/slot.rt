//! Slots of a row.

ghost use Rattle.std.specs.Prelude.{◌≡◌};
ghost use Rattle.lus_meaning.specs.Value.{choose, is};
ghost use Rattle.lus_meaning.specs.TraceView.{entry_view};
ghost use Rattle.slot_values.specs.Evaluated.{is_there, only_where, slot_view, slots_in};

use lus_meaning::Value;

/// The value of a slot at an instant. A row has one for each slot, which is shorter than an optional value.
#[derive(Clone, Copy, Debug)]
pub enum SlotValue {
    /// No value: the clock of what the slot stands for is off.
    Absent,
    /// A truth value.
    Truth(bool),
    /// A whole number.
    Whole(i128),
}

impl SlotValue {
    /// What stands for that value, or for none.
    pub fn of(value: Option<Value>) -> Self
        ensures { slot_view result ≡ entry_view value }
    {
        match value {
            Some(Value::Truth(b)) => SlotValue::Truth(b),
            Some(Value::Whole(n)) => SlotValue::Whole(n),
            None => SlotValue::Absent,
        }
    }

    /// The value for which it stands; none where it is absent.
    pub fn value(self) -> Option<Value>
        ensures { entry_view result ≡ slot_view self }
    {
        match self {
            SlotValue::Truth(b) => Some(Value::Truth(b)),
            SlotValue::Whole(n) => Some(Value::Whole(n)),
            SlotValue::Absent => None,
        }
    }
}

/// The value of a slot; none behind the end of the row.
pub(crate) fn slot_value(row: &[SlotValue], slot: u32) -> SlotValue
    ensures { slot_view result ≡ slots_in row.now slot }
{
    match row.get(slot as usize) {
        Some(value) => *value,
        None => SlotValue::Absent,
    }
}

/// Whether there is a value.
pub(crate) fn is_present(value: SlotValue) -> bool
    ensures { result ≡ is_there (slot_view value) }
{
    match value {
        SlotValue::Truth(_) | SlotValue::Whole(_) => true,
        SlotValue::Absent => false,
    }
}

/// Whether a value is that truth value.
pub fn is_truth(wanted: bool, value: SlotValue) -> bool
    ensures { result ≡ is wanted (slot_view value) }
{
    match value {
        SlotValue::Truth(b) => b == wanted,
        SlotValue::Absent | SlotValue::Whole(_) => false,
    }
}

/// The value where that is wanted.
pub fn value_if(on: bool, value: SlotValue) -> SlotValue
    ensures { slot_view result ≡ only_where on (slot_view value) }
{
    if on { value } else { SlotValue::Absent }
}

/// One of two values, by a truth value.
pub(crate) fn chosen_value(condition: SlotValue, first: SlotValue, second: SlotValue) -> SlotValue
    ensures { slot_view result ≡ choose (slot_view condition) (slot_view first) (slot_view second) }
{
    match condition {
        SlotValue::Truth(true) => first,
        SlotValue::Truth(false) => second,
        SlotValue::Absent | SlotValue::Whole(_) => SlotValue::Absent,
    }
}
