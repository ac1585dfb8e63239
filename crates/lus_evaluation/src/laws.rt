//! The laws of evaluation.

ghost use Rattle.lus_evaluation.specs.Laws.{OneEvaluation, TurnKept, LateComesBehind, WithinOrPast, NeverBoth, OneFirstPast, OneOutcome};

/// There is at most one order in which an instant is evaluated.
pub fn one_evaluation()
    ensures { OneEvaluation }
{}

/// The parts of one whole in a frame are evaluated in turn, and a part that comes out of turn directly behind another one
/// waits for that.
pub fn turns()
    ensures kept { TurnKept }
    ensures late { LateComesBehind }
{}

/// In a frame either all values that are evaluated are within 128 bits, or there is a first one that is not, and that
/// is told in one way alone.
pub fn within_or_past()
    ensures told { WithinOrPast }
    ensures never_both { NeverBoth }
    ensures one { OneFirstPast }
{}

/// The evaluation of a frame never both stays within 128 bits and meets a value outside, and it meets one alone.
pub fn one_outcome()
    ensures { OneOutcome }
{}
