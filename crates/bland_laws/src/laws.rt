//! The laws of the runs by Bland's rule.

ghost use Rattle.bland_laws.specs.Laws.{ChecksEnd, NoStateTwice, PremisesPassOn, RunsEnd, SmallBudgets, StatesDiffer};

/// What a run by Bland's rule begins with holds after each of its pivots, too.
pub fn premises_pass_on()
    ensures { PremisesPassOn }
{}

/// No basis stands twice in one run by Bland's rule with the same places of the columns outside it (R. G. Bland, New
/// finite pivoting rules for the simplex method, 1977; B. Dutertre, L. de Moura, A fast linear-arithmetic solver for
/// DPLL(T), 2006).
pub fn no_state_twice()
    ensures { NoStateTwice }
{}

/// The positions of one run by Bland's rule differ pairwise, in the basis or in the place of a column outside it.
pub fn states_differ()
    ensures { StatesDiffer }
{}

/// Each run by Bland's rule ends, after fewer pivots than 3 to the power of the columns: the greatest column that moves
/// enters at most once and leaves at most once, and before, between and after these two only columns below it move.
pub fn runs_end()
    ensures { RunsEnd }
{}

/// A check makes fewer pivots than that, too, where no column's bounds cross. So a stop that truly says that a budget
/// of pivots was too small names a budget below that.
pub fn checks_end()
    ensures run { ChecksEnd }
    ensures budget { SmallBudgets }
{}
