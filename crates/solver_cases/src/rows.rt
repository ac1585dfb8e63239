//! Worked rows of the path check, by computation: each function is its contract.

ghost use Rattle.std.specs.Prelude.{◌≡◌};
ghost use Rattle.sys_terms.specs.declared.term.PathAnswer.TheVariants.{Breaks, NotPath, NoBreak};
ghost use Rattle.sys_terms.specs.Evaluated.{answer_of};
ghost use Rattle.solver_cases.specs.Counter.{counter, to_two, to_three, wrong_second};

/// A counter from 0 on is not below 3 when it comes to 3.
pub fn the_counter_comes_to_three()
    ensures { answer_of counter to_three 1 ≡ Breaks }
{}

/// At 2 it is.
pub fn the_counter_is_below_three()
    ensures { answer_of counter to_two 1 ≡ NoBreak }
{}

/// It does not come to 5 after 0.
pub fn the_counter_skips_nothing()
    ensures { answer_of counter wrong_second 1 ≡ NotPath 1 }
{}
