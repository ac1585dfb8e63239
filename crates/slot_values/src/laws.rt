//! What the resolution of an expression is worth in a row of values.

ghost use Rattle.slot_values.specs.Clocked.{WorthIsSeen, RightsAreSeen, WorthIsAbsent};
ghost use Rattle.slot_values.specs.FrameRow.{ValuesByRows};
ghost use Rattle.slot_values.specs.Parts.{PartsByRows};

/// On the clock on which an expression stands its resolution is worth what the expression is seen to be in the row, and
/// the resolutions of a right side are worth what is seen of that.
pub fn on_the_clock()
    ensures expression { WorthIsSeen }
    ensures right_side { RightsAreSeen }
{}

/// Off that clock the resolution is absent.
pub fn off_the_clock()
    ensures { WorthIsAbsent }
{}

/// In a row that shows a frame at an instant the resolution of an expression is worth the expression's value there.
pub fn values_by_rows()
    ensures { ValuesByRows }
{}

/// In such a row, of an expression all of whose earlier parts are within 128 bits the operation that is outside is its
/// own, if there is one; and where none is, and what is nested in it is within, all its parts are.
pub fn parts_by_rows()
    ensures { PartsByRows }
{}
