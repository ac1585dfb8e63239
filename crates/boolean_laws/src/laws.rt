//! Laws of programs without integers, over the definitions alone: each function is its contract.

ghost use Rattle.boolean_laws.specs.Books.{CausesNeedNoNumbers, ConflictsNeedLargeQueries};
ghost use Rattle.boolean_laws.specs.Complete.{EachAnswerIsDecided, EachQueryNeverStops, QueriesHaveNoNumbers};
ghost use Rattle.boolean_laws.specs.Laws.{EachHasNone, SystemsAreOfFlags};

use cause_laws::laws::plain_forms_are_complete;
use smt_solver::laws::boolean_queries_have_no_atoms;

/// Where no declaration of a checked program has a stream or an expression of type int, none has any with all that it
/// calls and imports.
pub fn each_has_none()
    ensures { EachHasNone }
{}

/// The system of a declaration of a checked program that has no integers, with all that it calls and imports, has no
/// variable that is a number and no term that compares numbers.
pub fn systems_are_of_flags()
    ensures { SystemsAreOfFlags }
{}

/// Each query over such a system has a clause form, and no variable of that is a number, where neither the terms that
/// it asks about nor the cited ones compare numbers.
pub fn queries_have_no_numbers()
    ensures { QueriesHaveNoNumbers }
{}

/// So no stop of splits, of pivots or of an operation is true of such a query over the system of a declaration without
/// integers, but for one of splits with a budget of none; and none of conflicts, with a budget of at least 3 to the
/// number of its variables.
pub fn queries_never_stop()
    ensures { EachQueryNeverStops }
{
    systems_are_of_flags();
    queries_have_no_numbers();
    boolean_queries_have_no_atoms();
    plain_forms_are_complete();
}

/// An answer of `solve` to it is no stop but of conflicts, whatever the budgets, and a proof or states with that budget
/// of conflicts.
pub fn answers_are_decided()
    ensures { EachAnswerIsDecided }
{
    systems_are_of_flags();
    queries_never_stop();
    boolean_queries_have_no_atoms();
}

/// In a sound book over the system of a declaration without integers, whose lemmas compare no numbers, no cause is
/// splits, pivots, past or wide, where the plan has a budget of splits; and conflicts is one only where the budget is
/// below 3 to the number of variables of some query.
pub fn causes_need_no_numbers()
    ensures causes { CausesNeedNoNumbers }
    ensures conflicts { ConflictsNeedLargeQueries }
{
    systems_are_of_flags();
    queries_never_stop();
}
