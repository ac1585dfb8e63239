//! Rows of the tableau of `2*x0 - x2 = 0` and `2*x1 - x3 = 0`, where x2 and x3 are at least 1 and stand there.

ghost use Rattle.proof_steps.specs.View.{Sum};
ghost use Rattle.int_cuts.specs.Cuts.{IsCut};
ghost use Rattle.cut_rows.specs.Halves.{halves, at_least_one};

/// The cut `-x1 <= -1` of the row of x1 is none for x0: no line makes it so.
pub fn cut_of_another_row()
    ensures { (line : Sum) → ¬ IsCut halves 0 line (at_least_one 1) }
{}
