//! Laws of lines over literals, over the definitions alone: each function is its contract.

ghost use Rattle.line_laws.specs.Lines.{BoundsSayWhatLiteralsSay, CutLinesSumToTheirAtom, RefutedBoundsSumToNothing};
ghost use Rattle.line_laws.specs.CutSteps.{CutsGiveSteps, FollowingAtomsGiveSteps};
ghost use Rattle.line_laws.specs.PastSteps.{FittingSumsFit, PastSumsArePast};
ghost use Rattle.line_laws.specs.Steps.{AtomsAreDecided, FittingStepsAreTaken, RefutationsGiveSteps, RefutedBoundsGiveAStep, SplitStepsFit};

/// Where bounds sum to a whole combination of the rows, what their literals mean sums to nothing, with the same right
/// side.
pub fn refuted_bounds_sum_to_nothing()
    ensures { RefutedBoundsSumToNothing }
{}

/// Where bounds and rows sum to a multiple of a cut's atom, so does what their literals mean.
pub fn cut_lines_sum_to_their_atom()
    ensures { CutLinesSumToTheirAtom }
{}

/// A literal of an atom is true exactly where its bound is met.
pub fn bounds_say_what_literals_say()
    ensures { BoundsSayWhatLiteralsSay }
{}

/// Bounds that refute each other give a theory step that breaks no rule, unless a number of it is outside 128 bits.
pub fn refuted_bounds_give_a_step()
    ensures { RefutedBoundsGiveAStep }
{}

/// What a tableau answers of bounds that refute each other, where each is what a literal means, gives such a step, with
/// its multipliers and literals.
pub fn refutations_give_steps()
    ensures { RefutationsGiveSteps }
{}

/// Where the numbers of such a step are within 128 bits, it breaks no rule.
pub fn fitting_steps_are_taken()
    ensures { FittingStepsAreTaken }
{}

/// The two literals of an atom refute each other, so a step's clause can have both, as that of a split does.
pub fn atoms_are_decided()
    ensures { AtomsAreDecided }
{}

/// A cut gives a theory step that breaks no rule where its atom stands behind the others, unless a number of it is
/// outside 128 bits.
pub fn cuts_give_steps()
    ensures { CutsGiveSteps }
{}

/// What follows by a line of a tableau's bounds, each of which is what a literal means, gives such a step, with the
/// line's multipliers and literals.
pub fn following_atoms_give_steps()
    ensures { FollowingAtomsGiveSteps }
{}

/// The step of a split's atom `x <= c` has numbers within 128 bits where c and -c - 1 are.
pub fn split_steps_fit()
    ensures { SplitStepsFit }
{}

/// A product or a sum of such a step that is outside 128 bits, where one row refuted the bounds, is an operation over
/// that row: a true stop of the query.
pub fn past_sums_are_past()
    ensures { PastSumsArePast }
{}

/// Where no product and no sum is outside 128 bits, the numbers of the step fit.
pub fn fitting_sums_fit()
    ensures { FittingSumsFit }
{}
