//! Rows that agree have the same answers.

ghost use Rattle.slot_replay.specs.Following.{GoingOnIsWithin, ToldIsFirst, WithinAgrees, WithinBreaks, WithinLawful};
ghost use Rattle.slot_replay.specs.Agreement.{BreaksAgree, FirstAgree, LawfulAgree, PastsAgree, WithinTrue};

/// Take two sequences of rows that agree on a set of slots, and conditions that read only slots of the set: the same
/// properties break at the same instants, and the same instants are lawful. Where parts read only slots of the set too,
/// and the same rows were outside 128 bits, what is told is the same. At one instant, the first operation outside of a
/// front of the parts that reads only slots of the set is the first one of all parts. A condition with no operation
/// outside is true exactly if it is worth that.
pub fn answers_agree()
    ensures breaks { BreaksAgree }
    ensures lawful { LawfulAgree }
    ensures pasts { PastsAgree }
    ensures first { FirstAgree }
    ensures within { WithinTrue }
{}

/// Take rows that follow from the sources, whose values have any size, and a closed set of slots in which all is
/// that the conditions and the parts read. Let no part have an operation outside 128 bits where no source and no
/// condition has, and the other way round no source of the set and no condition where no part has; and let what a
/// part reads be done where no part before it has one. What is told by the table is then the first operation
/// outside that the parts have in these rows. Where the replay by the table goes on, no part has one. Where none
/// has, the table has the values of these rows in the slots of the set, and so their answers.
pub fn replay_follows()
    ensures told { ToldIsFirst }
    ensures going_on { GoingOnIsWithin }
    ensures values { WithinAgrees }
    ensures breaks { WithinBreaks }
    ensures lawful { WithinLawful }
{}
