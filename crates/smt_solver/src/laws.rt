//! Laws of queries without atoms and of true stops, over the definitions alone: each function is its
//! contract.

ghost use Rattle.std.specs.Prelude.{List};
ghost use Rattle.sys_terms.specs.View.{Formula, Machine, Task, Question};
ghost use Rattle.smt_solver.specs.Boolean.{BooleanQueriesHaveNoAtoms};
ghost use Rattle.smt_solver.specs.Conflicting.{RefutedBoundsConflict};
ghost use Rattle.smt_solver.specs.Ending.{ListedAreOfTheQuery, RefutationsAreOfTheQuery};
ghost use Rattle.smt_solver.specs.Growing.{RunsGrow, RunsTakeSteps, SplitsAreTaken};
ghost use Rattle.smt_solver.specs.Judging.{MetValuesMeet};
ghost use Rattle.smt_solver.specs.NumberStates.{WholeValuesMeet};
ghost use Rattle.smt_solver.specs.Run.{ClausesFit};
ghost use Rattle.smt_solver.specs.Stops.{BrokenNumbersSplit, ChecksKeepTableaus, LongChecksAreLong, PastChecksArePast};
ghost use Rattle.smt_solver.specs.NeedRoom.{FlagsBoundConflicts, RangesSuffice, SplitsNeedRoom, StopsNeedAtoms};

use line_laws::laws::{
    atoms_are_decided, bounds_say_what_literals_say, fitting_steps_are_taken,
    refutations_give_steps, split_steps_fit,
};
use sat_core::laws::new_clauses_are_few;
use sys_terms::laws::evaluation_is_the_truth;

/// Where no term compares numbers, the query has no atom.
pub fn boolean_queries_have_no_atoms()
    ensures { (m : Machine) (task : Task) (cites : List Formula) → BooleanQueriesHaveNoAtoms m task cites }
{}

/// The literals of a query's clauses are flags and atoms of its clause form.
pub fn clauses_fit_their_form()
    ensures { (q : Question) → ClausesFit q }
{}

/// Without atoms a budget of 3 to the number of variables is never used up by conflicts.
pub fn flags_bound_conflicts()
    ensures { FlagsBoundConflicts }
{
    new_clauses_are_few();
}

/// Without atoms there is no true stop but of conflicts.
pub fn stops_need_atoms()
    ensures { StopsNeedAtoms }
{}

/// Where each number has a range, splits are at most as many as there is room in the ranges.
pub fn splits_need_room()
    ensures { SplitsNeedRoom }
{}

/// Where each number has a range, splits never use up a budget above the room, nor conflicts one of 3 to the
/// number of flags, atoms and room.
pub fn ranges_suffice()
    ensures { RangesSuffice }
{
    new_clauses_are_few();
}

/// Where a tableau's values are whole and meet the bounds of an assignment that makes the clauses true,
/// the states that they make meet the query's conditions.
pub fn whole_values_meet()
    ensures { WholeValuesMeet }
{
    bounds_say_what_literals_say();
}

/// Where they are not all whole, the least column whose value is not is a number of the query, and its
/// split at that value's floor is a true one.
pub fn broken_numbers_split()
    ensures { BrokenNumbersSplit }
{}

/// A check that is stopped for its pivots is a true stop of the query with its splits.
pub fn long_checks_are_long()
    ensures { LongChecksAreLong }
{}

/// A check that is stopped for an operation outside 128 bits is a true stop of the query with its splits.
pub fn past_checks_are_past()
    ensures { PastChecksArePast }
{}

/// A check that ends leaves each column outside the basis at 0, a bound of the query or an end of a split.
pub fn checks_keep_tableaus()
    ensures { ChecksKeepTableaus }
{}

/// What holds of a run at every turn still holds when its form gets further atoms.
pub fn runs_grow()
    ensures { RunsGrow }
{}

/// It holds too when the clause of a theory step that breaks no rule is added, also as a conflict where
/// the clause says more than the known ones.
pub fn runs_take_steps()
    ensures { RunsTakeSteps }
{}

/// The step that a split's atom or its opposite is true breaks no rule.
pub fn splits_are_taken()
    ensures { SplitsAreTaken }
{
    atoms_are_decided();
    fitting_steps_are_taken();
    split_steps_fit();
}

/// Where bounds of true literals refute each other, the clause that one of these is false is that of a
/// theory step, unless a number is outside 128 bits, and says more than the known clauses.
pub fn refuted_bounds_conflict()
    ensures { RefutedBoundsConflict }
{
    refutations_give_steps();
}

/// The clauses that a run over a form with splits lists are conflicts of the query with these splits.
pub fn listed_are_of_the_query()
    ensures { ListedAreOfTheQuery }
{}

/// Steps that refute the form with the splits' atoms refute the query with these atoms.
pub fn refutations_are_of_the_query()
    ensures { RefutationsAreOfTheQuery }
{}

/// Values of which each condition of a query is evaluated as true meet the query.
pub fn met_values_meet()
    ensures { MetValuesMeet }
{
    evaluation_is_the_truth();
}
