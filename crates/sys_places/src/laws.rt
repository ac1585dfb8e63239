//! Where the variables of a frame stand.

ghost use Rattle.sys_places.specs.Own.{CallVariablesStand, EachCallVariablesStand, OthersAreMissing, OwnStands};
ghost use Rattle.sys_places.specs.Places.{StandsAtCalls, StandsAtEachCall, StandsAtRoot};

/// The variables of a system are those of the analysed declaration's frame, from the first one on; what is not
/// there has the number behind the last one.
pub fn stands_at_root()
    ensures { StandsAtRoot }
{}

/// In a checked program, where the frame of a declaration has its variables from some number on, the frames of its
/// calls and imports have theirs where the declaration's layout says: behind the cells of the frame's own so many
/// as the call's `frame`. It speaks of all calls in order, or of the one at a place of the lists.
pub fn stands_at_calls()
    ensures all { StandsAtCalls }
    ensures each { StandsAtEachCall }
{}

/// In a checked program a frame's own variables are, from its first number on, its beat, its streams, the memories of
/// `pre` and the starts of `->` in the order of their numbers, and, where it keeps that, whether its assumptions were
/// true so far. What of these it has not is missing.
pub fn own_variables_stand()
    ensures { OwnStands }
{}

/// In a checked program the outputs that a frame holds of a call under a condition stand in their order right
/// before the call's frame, whose beat comes first and then its streams. Of other calls none is held. Of a call
/// that is not there all is missing.
pub fn call_variables_stand()
    ensures all { CallVariablesStand }
    ensures each { EachCallVariablesStand }
    ensures others { OthersAreMissing }
{}
