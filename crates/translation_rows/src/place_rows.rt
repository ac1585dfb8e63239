//! Where printed text finds variables, by their numbers, and the trace of states in one of which the node isn't active.

ghost use Rattle.translation_rows.specs.PlaceRows.{AgainstPlaces, HeldPairPlaces, NoPlaceBehind, TraceOfInactive, TwoCallsPlaces};

/// A name has its own place and the memory of a `pre` that of its first value, each behind the calls on the way; a held
/// value has the place of its output, and the other variables have none.
pub fn printed_place_row()
    ensures one_node { AgainstPlaces }
    ensures behind { NoPlaceBehind }
    ensures calls { TwoCallsPlaces }
    ensures held { HeldPairPlaces }
{}

/// A name is absent from a trace where the node isn't active.
pub fn inactive_trace_row()
    ensures { TraceOfInactive }
{}
