//! Rows of learnt clauses, over the flags a, b, c and the clauses `a or b` and `a or not b`.

ghost use Rattle.std.specs.Prelude.{[], ◌∷◌};
ghost use Rattle.proof_steps.specs.StopView.{conflicts};
ghost use Rattle.proof_steps.specs.Stopped.{IsTrueOf};
ghost use Rattle.stop_rows.specs.Conflicts.{three_flags, spent, a_alone, b_alone, a_or_c};

/// The clause `a` follows, and neither clause of the query is a part of it.
pub fn clause_is_learnt()
    ensures { IsTrueOf three_flags (spent 1) (conflicts (a_alone ∷ []) []) }
{}

/// After `a` the clause `a or c` says nothing new.
pub fn clause_with_a_learnt_part()
    ensures { ¬ IsTrueOf three_flags (spent 2) (conflicts (a_alone ∷ a_or_c ∷ []) []) }
{}

/// The clause `b` does not follow: a true and b false solve the query.
pub fn clause_that_does_not_follow()
    ensures { ¬ IsTrueOf three_flags (spent 1) (conflicts (b_alone ∷ []) []) }
{}

/// One learnt clause is no stop where two may be learnt.
pub fn fewer_than_the_budget()
    ensures { ¬ IsTrueOf three_flags (spent 2) (conflicts (a_alone ∷ []) []) }
{}
