//! Rows of splits, pivots and numbers outside 128 bits.

ghost use Rattle.std.specs.Prelude.{[], ◌∷◌};
ghost use lib.IntN.{pos};
ghost use Rattle.proof_steps.specs.Splits.{AreSplits};
ghost use Rattle.proof_steps.specs.StopView.{pivots, past};
ghost use Rattle.proof_steps.specs.Stopped.{IsTrueOf};
ghost use Rattle.stop_rows.specs.Numbers.{halves, nothing_spent, sum_below_2, listed_twice, far_away, doubled};

/// Where `2*x - 2*y <= 1` is asserted, its row puts x at 1/2, so x at most 0, or at least 1, is a
/// split.
pub fn halves_are_split()
    ensures { AreSplits halves ((0, pos 0) ∷ []) }
{}

/// Where `2*x - 2*y` is asserted to be 2 or more, Bland's rule makes a pivot from x and y at 0,
/// which is more than no pivot.
pub fn one_pivot_is_more_than_none()
    ensures { IsTrueOf halves nothing_spent (pivots sum_below_2 []) }
{}

/// The row `2*x - 2*y - s = 0` with `2^126*s - 2^126*s` written out beside it has the same entries
/// in all, and `2^126 * 2` is outside. It is no kept row, since it lists a column twice.
pub fn column_listed_twice()
    ensures { ¬ IsTrueOf halves nothing_spent (past listed_twice []) }
{}

/// With x at its bound 2^126, `2*x` of the row `2*x - 2*y - s = 0` is outside.
pub fn doubled_bound_is_past()
    ensures { IsTrueOf far_away nothing_spent (past doubled []) }
{}
