//! Laws of what causes say, over the definitions alone: each function is its contract.

ghost use Rattle.depth_laws.specs.Laws.{BreaksHaveCounterexamples, BrokenAreFalsifiable, CitingStepsAreQueries};
ghost use Rattle.depth_laws.specs.Laws.{DepthOfBounded, DepthOfStep, DepthWithLemmas, InductiveAreValid, InductiveHold};
ghost use Rattle.depth_laws.specs.Laws.{PlayedAreComplete, PlayedHaveCauses, PlayedHaveWholeCauses, StepsAreQueries};
ghost use Rattle.depth_laws.specs.Laws.{UnknownAreBeyond, WholeCausesAreDepths};

/// A path that ends with a property false begins with one on which the property is false at the last state alone: so a
/// property breaks at an instant up to a given one exactly where it has a counterexample to such an instant.
pub fn breaks_have_counterexamples()
    ensures { BreaksHaveCounterexamples }
{}

/// A property that is k-inductive for some k is true in all reachable states.
pub fn inductive_hold()
    ensures { InductiveHold }
{}

/// A property is true after each k states at which it is true exactly where the query of its step by k states has no
/// solution; and so it is where terms are true at all of these states and the query cites them.
pub fn steps_are_queries()
    ensures alone { StepsAreQueries }
    ensures cited { CitingStepsAreQueries }
{
    sys_terms::laws::values_that_meet_are_answers();
    sys_terms::laws::joined_states_come_back();
}

/// In a sound book each cause that is none of conflicts, splits, pivots, past and wide is the depth of the plan.
pub fn whole_causes_are_depths()
    ensures { WholeCausesAreDepths }
{}

/// Where a sound book's cause of bounded search for a property is a depth, no path of as many states as the plan's
/// depth and one, or fewer, ends with the property false.
pub fn depth_of_bounded()
    ensures { DepthOfBounded }
{
    cert_rules::laws::facts_hold();
    cert_rules::laws::facts_are_true();
}

/// Where a sound book's cause of induction for a property is a depth, the property is k-inductive for no k up to the
/// plan's depth. Some stuck entry of it has a front such that the lemmas at places below it do not help: for no such k
/// is the property true after each k states at which it and they are true.
pub fn depth_of_step()
    ensures inductive { DepthOfStep }
    ensures lemmas { DepthWithLemmas }
{}

/// Where a sound book decides a property, or its causes of both engines for it are none of conflicts, splits, pivots,
/// past and wide: the property is falsifiable if it breaks at an instant up to the plan's depth, and valid if it is
/// k-inductive with k up to the plan's depth. So unknown is said only of a property that does neither.
pub fn decided_where_complete()
    ensures falsifiable { BrokenAreFalsifiable }
    ensures valid { InductiveAreValid }
    ensures unknown { UnknownAreBeyond }
{
    board_core::laws::verdicts_are_true();
    whole_causes_are_depths();
    depth_of_bounded();
    depth_of_step();
    inductive_hold();
}

/// What a play promises of the causes of its engines: where a property is unknown, the book has them. So it has the
/// whole ones, unless they were cut short.
pub fn played_have_causes()
    ensures causes { PlayedHaveCauses }
    ensures whole { PlayedHaveWholeCauses }
{}

/// Where two seats have posted the causes of bounded search and of induction for what a sound book leaves undecided,
/// as a play of both engines promises, and it decides a property, or its causes for it are none of conflicts, splits,
/// pivots, past and wide: the property is falsifiable if it breaks at an instant up to the plan's depth, valid if it
/// is k-inductive with k up to the plan's depth, and unknown only if it does neither.
pub fn played_books_are_complete()
    ensures { PlayedAreComplete }
{
    decided_where_complete();
    played_have_causes();
}
