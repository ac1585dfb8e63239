//! What holds of the states of a frame is what the translation says.

ghost use Rattle.sys_conditions.specs.Laws.{ConditionsAreTranslated};

/// Where a sight finds what the translation finds, the conditions of a frame are the translation's.
pub fn conditions_are_translated()
    ensures { ConditionsAreTranslated }
{}
