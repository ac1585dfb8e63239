//! Worked clause forms, by computation: each function is its contract.

ghost use Rattle.std.specs.Prelude.{◌≡◌, Ok, []};
ghost use Rattle.sys_terms.specs.View.{base, step};
ghost use Rattle.sys_terms.specs.Queries.{query_of};
ghost use Rattle.cnf_maker.specs.ClauseForm.{clause_form};
ghost use Rattle.solver_cases.specs.Five.{five, five_base, five_step};

/// The base query of `x = 5` with the property `x >= 3`.
pub fn five_at_its_first_state()
    ensures { clause_form (query_of five (base 0 0) []) ≡ Ok five_base }
{}

/// Its step query with k = 1.
pub fn five_after_a_step()
    ensures { clause_form (query_of five (step 0 1) []) ≡ Ok five_step }
{}
