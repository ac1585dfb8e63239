//! What a replay shows.

ghost use Rattle.std.specs.Prelude.{◌≡◌};
ghost use Rattle.lus_meaning.specs.TraceView.{entry_view};
ghost use Rattle.slot_replay.specs.Shown.{replayed_view};

use crate::marks::found_of;
use lus_meaning::Value;
use slot_rows::Table;

/// At which instants properties break, how many instants are lawful, and the values of the slots.
#[derive(Drop)]
pub struct Replayed {
    pub(crate) table: Table,
    pub(crate) lawful: u32,
    pub(crate) broken: Vec<Option<u32>>,
}

impl Replayed {
    /// The instant at which the property with this number breaks, if it does; they count from 0 in their order.
    pub fn breaks(&self, property: u32) -> Option<u32>
        ensures { result ≡ (replayed_view self.now).breaks property }
    {
        found_of(&self.broken, property as usize)
    }

    /// How many instants are lawful: the first ones.
    pub fn lawful(&self) -> u32
        ensures { result ≡ (replayed_view self.now).lawful }
    {
        self.lawful
    }

    /// The value of a slot at an instant; none where it is absent, and where there is no such slot or instant.
    pub fn value(&self, slot: u32, instant: u32) -> Option<Value>
        ensures { entry_view result ≡ (replayed_view self.now).value slot instant }
    {
        self.table.value(slot as usize, instant as usize)
    }
}
