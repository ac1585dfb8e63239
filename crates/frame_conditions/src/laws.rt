//! The conditions of a contract by the sight of a frame.

ghost use Rattle.frame_conditions.specs.Laws.{ConditionsAreResolved};

/// Where a sight finds what the translation finds, the conditions of a contract by it are those of the instance, with
/// the numbers of the frame's places.
pub fn conditions_are_resolved()
    ensures { ConditionsAreResolved }
{}
