//! The laws of evaluations that stay within 128 bits.

ghost use Rattle.within_laws.specs.Laws.{QuietPartsAreWithin, PartsWithinAreQuiet};
ghost use Rattle.within_laws.specs.Frames.{AllSidesAreQuiet, AllTextsAreQuiet};
ghost use Rattle.within_laws.specs.Instants.{InstantsAreWithin, PartsStandAtCalls, PartsAreOverSlots, QuietRunsStayWithin};
ghost use Rattle.within_laws.specs.Small.{SmallPathsStayWithin, SmallRunsStayWithin};
ghost use Rattle.within_laws.specs.Sources.{FramesAreQuiet};
ghost use Rattle.within_laws.specs.Texts.{TextsAreQuiet};

/// Of a checked program, in the evaluation of an instant of a run of a declaration: all parts are within 128 bits
/// exactly where no part's resolution has an operation outside in the row of that instant.
pub fn quiet_parts_are_within()
    ensures within { QuietPartsAreWithin }
    ensures quiet { PartsWithinAreQuiet }
{}

/// Of a checked program, in the row of a run at an instant and in the frame at the end of each way of calls: where the
/// resolution of a text has no operation outside 128 bits, and what its parts leave to others has none (the operands of
/// `pre`, arguments and defaults of calls, what is evaluated in their frames, and what modes require), no part has one.
pub fn texts_are_quiet()
    ensures { TextsAreQuiet }
{}

/// Where no source of a slot that is read has an operation outside 128 bits in the row of an instant, the right sides,
/// the operands of `pre`, and the conditions and arguments of calls and imports have none, in the frame at the end of
/// each way of calls.
pub fn frames_are_quiet()
    ensures { FramesAreQuiet }
{}

/// So in each of these frames no part of a text has an operation outside where the text has none: what its parts
/// leave to others are sources, or defaults, which are constants. It is taken that the frames of calls and what
/// modes require have none. So no part of an equation's right side has one.
pub fn all_texts_are_quiet()
    ensures texts { AllTextsAreQuiet }
    ensures equations { AllSidesAreQuiet }
{}

/// Of a checked program each part of an instant stands in the frame at the end of a way of calls, and in the row of
/// a run its operations outside are those of its resolution over slots, evaluated where the slot of its clock says so.
pub fn parts_over_slots()
    ensures ways { PartsStandAtCalls }
    ensures operations { PartsAreOverSlots }
{}

/// Of a checked program, in the evaluation of an instant of a run of a declaration: where no source of a slot that is
/// read has an operation outside 128 bits in the row of that instant, and no condition has one, all parts are within.
/// So the evaluation of the first instants of a run stays within, where it is so at each of them.
pub fn instants_are_within()
    ensures within { InstantsAreWithin }
    ensures stays { QuietRunsStayWithin }
{}

/// No expression of a checked program weighs more than 2^63. So where the values of the slots of a run of a
/// declaration are of sizes of at most 2^63 - 1, its evaluation stays within 128 bits; and so does that of the
/// frame of a path with such numbers.
pub fn small_runs_stay_within()
    ensures runs { SmallRunsStayWithin }
    ensures paths { SmallPathsStayWithin }
{}
