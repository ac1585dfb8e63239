//! Laws of true stops, over the definitions alone: each function is its contract.

ghost use Rattle.cause_laws.specs.Complete.{AnswersAreComplete, PlainFormsAreComplete, QueriesAreComplete};
ghost use Rattle.cause_laws.specs.Laws.{BasesBoundPivots, ChecksAlwaysEnd, PivotsAreFew, SmallNumbersStayWithin};

use cnf_maker::laws::mild_queries_have_small_forms;
use smt_solver::laws::{
    boolean_queries_have_no_atoms, flags_bound_conflicts, ranges_suffice, stops_need_atoms,
};

/// A run from where a check begins makes fewer pivots than 3 to the power of the columns, also where bounds cross.
pub fn checks_always_end()
    ensures { ChecksAlwaysEnd }
{}

/// A true stop of pivots names a budget at least two below 3 to the power of the columns, whatever its bounds.
pub fn pivots_are_few()
    ensures { PivotsAreFew }
{}

/// So a budget of the number of bases times that is never too small.
pub fn bases_bound_pivots()
    ensures { BasesBoundPivots }
{}

/// Where each number has a range, and rows, coefficients and bounds are below 2^40 in size, with at most 2^20 columns,
/// no operation is outside 128 bits.
pub fn small_numbers_stay_within()
    ensures { SmallNumbersStayWithin }
{}

/// The lines of completeness together, of a clause form whose atoms are plain: which stops are not true of it.
pub fn plain_forms_are_complete()
    ensures { PlainFormsAreComplete }
{
    flags_bound_conflicts();
    stops_need_atoms();
    ranges_suffice();
    bases_bound_pivots();
    small_numbers_stay_within();
}

/// The same, of the clause form of what `solve` can be asked.
pub fn queries_are_complete()
    ensures { QueriesAreComplete }
{
    plain_forms_are_complete();
    mild_queries_have_small_forms();
}

/// So an answer of `solve` is none of these stops; and with ranges, small numbers and large enough budgets it is a proof
/// or states.
pub fn answers_are_complete()
    ensures { AnswersAreComplete }
{
    queries_are_complete();
    flags_bound_conflicts();
    boolean_queries_have_no_atoms();
}
