//! Laws of a tableau's checks, over the definitions alone: each function is its contract.

ghost use Rattle.check_laws.specs.Laws.{LargeBudgetsAreEnough, NoStateTwice};

/// A check answers that its budget of pivots was too small only where the budget is at least two below 3 to the power of
/// the columns: any larger one is enough.
pub fn large_budgets_are_enough()
    ensures { LargeBudgetsAreEnough }
{}

/// In the run of pivots that Bland's rule makes from a tableau no basis stands twice with the same places of the columns
/// outside it, whatever the budget.
pub fn no_state_twice()
    ensures { NoStateTwice }
{}
