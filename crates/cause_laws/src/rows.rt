//! Rows at the bounds of the laws, worked out by hand: each function is its contract.

ghost use Rattle.std.specs.Prelude.{ℕ, List, [], ◌∷◌};
ghost use lib.IntN.{ℤ, pos};
ghost use Rattle.proof_steps.specs.StopView.{Halt, splits, pivots, past, Beginning, Operation};
ghost use Rattle.proof_steps.specs.declared.stops.Budgets.{Budgets as Limits};
ghost use Rattle.proof_steps.specs.Rows.{Form, rows_of, columns_of};
ghost use Rattle.proof_steps.specs.Stopped.{IsTrueOf};
ghost use Rattle.cause_laws.specs.Bases.{AreAllBases};
ghost use Rattle.cause_laws.specs.Small.{EachHasRange, HasSmallNumbers};
ghost use Rattle.cause_laws.specs.Worked.{near, far, far_ends, doubled, crossing, ample, three_bases, splits_of, pivots_of};

use crate::laws::{bases_bound_pivots, pivots_are_few, small_numbers_stay_within};
use smt_solver::laws::ranges_suffice;

/// Whatever the query, a budget of no splits is used up at the start.
pub fn no_split_is_spent_at_once()
    ensures { (f : Form) → IsTrueOf f (splits_of 0) (splits []) }
{}

/// Where x goes from 0 to 1 and y from 0 to 0, one split uses up a budget of one, which is as much as the room.
pub fn room_is_spent()
    ensures { IsTrueOf near (splits_of 1) (splits ((0, pos 0) ∷ [])) }
{}

/// Bounds that cross are such of literals, too: the stop of a start with both is true where the budget is no pivot.
pub fn crossing_bounds_pivot()
    ensures { IsTrueOf near (pivots_of 0) (pivots crossing []) }
{}

/// Of these three columns no run makes 27 pivots, so a budget of 26 is enough.
pub fn three_columns_need_no_more()
    ensures { (start : Beginning) (pairs : List (ℕ × ℤ)) → ¬ IsTrueOf near (pivots_of 26) (pivots start pairs) }
{
    pivots_are_few();
}

/// Each basis is one of the three columns.
pub fn near_has_three_bases()
    ensures { AreAllBases (rows_of near) (columns_of near) three_bases }
{}

/// The numbers of the query are small.
pub fn near_is_small()
    ensures { HasSmallNumbers near }
{}

/// So no operation over its rows is outside 128 bits.
pub fn near_stays_within()
    ensures { (budgets : Limits) (step : Operation) (pairs : List (ℕ × ℤ)) → ¬ IsTrueOf near budgets (past step pairs) }
{
    near_is_small();
    small_numbers_stay_within();
}

/// With a budget above the room, one of 3 to the number of atoms and room, and one of 3 bases times 3^3, no stop is true
/// of it.
pub fn near_has_no_stop()
    ensures { (halt : Halt) → ¬ IsTrueOf near ample halt }
{
    ranges_suffice();
    bases_bound_pivots();
    small_numbers_stay_within();
}

/// With x from 2^126 to 2^126, `2*x` of the row `2*x - 2*y - s = 0` is outside: ranges alone are not enough.
pub fn far_is_past()
    ensures ranges { EachHasRange far far_ends far_ends }
    ensures past { IsTrueOf far (splits_of 0) (past doubled []) }
{}
