//! What books say of runs, over the definitions alone: each function is its contract.

ghost use Rattle.verdict_laws.specs.Laws.{BrokenAreFalsifiable, DepthsHold, FalsifiableBreak, InductiveHold};
ghost use Rattle.verdict_laws.specs.Laws.{UnknownHoldUpTo, ValidHold};

/// What a sound book over the system of a declaration of a checked program says of a property is so of the
/// declaration's runs: one that it calls valid holds, and one that it calls falsifiable breaks, by the frame of the
/// path in the entry that the verdict names, at that path's last instant.
pub fn verdicts_of_runs()
    ensures valid { ValidHold }
    ensures falsifiable { FalsifiableBreak }
{
    board_core::laws::verdicts_are_true();
    path_laws::laws::each_verdicts();
}

/// Where the book's cause of bounded search is a depth, the property is true at each lawful instant up to the plan's
/// depth, in each run. Where the book decides the property, or that cause is none of conflicts, splits, pivots, past
/// and wide: the property is falsifiable if some run breaks it at an instant up to the plan's depth, and true at each
/// lawful instant up to the plan's depth if it is unknown.
pub fn depths_of_runs()
    ensures depths { DepthsHold }
    ensures unknown { UnknownHoldUpTo }
    ensures falsifiable { BrokenAreFalsifiable }
{
    verdicts_of_runs();
    path_laws::laws::each_verdicts();
    depth_laws::laws::whole_causes_are_depths();
    depth_laws::laws::depth_of_bounded();
}

/// A property of a declaration of a checked program whose formula is inductive with some number of states holds.
pub fn inductive_runs_hold()
    ensures { InductiveHold }
{
    depth_laws::laws::inductive_hold();
    path_laws::laws::each_verdicts();
}
