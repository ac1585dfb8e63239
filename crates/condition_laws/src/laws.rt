//! The laws of conditions.

ghost use Rattle.condition_laws.specs.Following.{ConditionsReadSlots, FollowingRowsAreLawful, FollowingRowsBreak, FollowingRowsTellConditions};
ghost use Rattle.condition_laws.specs.Laws.{BreaksByRows, EachPropertyHasAResolution, ItemsAskResolvings, LawfulByRows, LegalByRows, PropertiesByRows};
ghost use Rattle.condition_laws.specs.Within.{ConditionsStayWithin};

/// Of a checked program, in the row of a run of a declaration at an instant: the assumptions, with those of
/// imports, and the assertions of all frames are true exactly where all their resolutions are worth that.
pub fn legal_by_rows()
    ensures { LegalByRows }
{}

/// The resolution with a property's number is worth the property's truth: of the properties of the body, the
/// guarantees, the ensures under what their mode asks, that one mode is active, and what is owed to callees.
pub fn properties_by_rows()
    ensures counted { EachPropertyHasAResolution }
    ensures values { PropertiesByRows }
{}

/// So what the rows of a run say of its instants is so of the run: the first lawful instant at which the resolution
/// of a property is not true is where the frame breaks the property, and as many first instants are lawful.
pub fn breaks_by_rows()
    ensures breaks { BreaksByRows }
    ensures lawful { LawfulByRows }
{}

/// What the modes of a contract ask by its items is what they ask in the resolutions of the frame's text.
pub fn items_ask_resolvings()
    ensures { ItemsAskResolvings }
{}

/// Where all parts that are evaluated for the conditions are within 128 bits, no resolution of a condition has an
/// operation outside.
pub fn conditions_stay_within()
    ensures { ConditionsStayWithin }
{}

/// The resolutions of conditions read no slot that none is to read. So rows that follow from the sources of a
/// declaration and from what lines of a trace list have its conditions as the row of the frame has them, and what
/// these rows break, and how many first ones are lawful, is so of the frame.
pub fn following_rows_break()
    ensures read { ConditionsReadSlots }
    ensures conditions { FollowingRowsTellConditions }
    ensures breaks { FollowingRowsBreak }
    ensures lawful { FollowingRowsAreLawful }
{}
