//! What a trace that fits lists, by slot.

ghost use Rattle.std.specs.Prelude.{◌≡◌};
ghost use Rattle.lus_meaning.specs.TraceView.{entry_view, values_view};
ghost use Rattle.trace_fits.specs.Filling.{value_in};
ghost use Rattle.trace_fits.specs.Views.{fitted_at};

use crate::fitting::Seats;
use lus_meaning::{PlacedValue, Value};

/// What the lines of a trace list, by the number of the slot among the variables of its node's system.
#[derive(Drop)]
pub struct Fitted<'t> {
    pub(crate) seats: Seats<'t>,
}

/// The value at that instant.
fn value_at(values: &[PlacedValue], instant: usize) -> Option<Value>
    ensures { entry_view result ≡ value_in (values_view values.now) instant }
{
    if instant < values.len() {
        values[instant].value
    } else {
        None
    }
}

impl Fitted<'_> {
    /// What is listed of a name's slot at an instant, counted from 0, or of the slot of a `pre` its first value at
    /// 0; none where nothing is.
    pub fn at(&self, slot: usize, instant: usize) -> Option<Value>
        ensures { entry_view result ≡ fitted_at self.now slot instant }
    {
        match self.seats.get(slot) {
            Some(Some(values)) => value_at(*values, instant),
            _ => None,
        }
    }

    /// The first value that is listed of the slot of a `pre`; none where none is.
    pub fn first(&self, slot: usize) -> Option<Value>
        ensures { entry_view result ≡ fitted_at self.now slot 0 }
    {
        self.at(slot, 0)
    }
}
