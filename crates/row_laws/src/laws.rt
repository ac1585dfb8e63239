//! The laws of rows and sources.

ghost use Rattle.row_laws.specs.Laws.{EachSlotHasASource, RowsFollow, SourcesHaveRanks};
ghost use Rattle.row_laws.specs.OneRow.{DoneSlotsAreTheFrames, ResolutionsBySlotsRead, SourcesBySlotsRead};
ghost use Rattle.row_laws.specs.OneRow.{FollowingRowsGiveValues, FollowingRowsTellParts, OneRowFollows, RowsAreTheFrames, SourcesReadSlots};
ghost use Rattle.row_laws.specs.Within.{ModesStayWithin, RowsTellParts};

/// Of a checked program the rows of the frame that lines of a trace give a declaration follow from the sources of its
/// slots and from what the lines list: each value is what its source says. There is a source for each slot.
pub fn rows_follow()
    ensures follow { RowsFollow }
    ensures counted { EachSlotHasASource }
{}

/// Of a checked program the slots of a declaration have ranks by which each is above those that its source reads at the
/// same instant: names and beats by what they need, and all that is brought from earlier instants below these.
pub fn sources_have_ranks()
    ensures { SourcesHaveRanks }
{}

/// Of a checked program no source reads what none is to read, and rows that follow from the sources of a
/// declaration and from what lines of a trace list are those of the frame that the lines give, in all slots that
/// are read. From sources with ranks rows follow in one way alone.
pub fn rows_are_the_frames()
    ensures frames { RowsAreTheFrames }
    ensures read { SourcesReadSlots }
    ensures one { OneRowFollows }
{}

/// Of a row in the making, behind rows that follow: the slots that are done, where each has what its source says and
/// reads slots that are done, are as in the row of the frame. What a resolution or a source says is decided by the
/// slots that it reads.
pub fn done_slots_are_the_frames()
    ensures frames { DoneSlotsAreTheFrames }
    ensures resolutions { ResolutionsBySlotsRead }
    ensures sources { SourcesBySlotsRead }
{}

/// So in such rows the resolution of each expression, of the frame at the end of each way of calls, is worth the
/// expression's value in that frame, and has the operations outside 128 bits that it has in the row of the frame.
pub fn following_rows_give_values()
    ensures values { FollowingRowsGiveValues }
    ensures operations { FollowingRowsTellParts }
{}

/// Of a checked program, in the row of a run at an instant and in the frame at the end of each way of calls: where what
/// a mode requires is within 128 bits, its resolution has no operation outside. So the operations of an expression's
/// resolution say which of its parts are outside.
pub fn rows_tell_parts()
    ensures modes { ModesStayWithin }
    ensures parts { RowsTellParts }
{}
