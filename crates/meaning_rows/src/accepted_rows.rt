//! Worked rows: the programs of `specs/AcceptedRows.antt`, which stand just inside a rule, follow all rules.

ghost use Rattle.std.specs.Prelude.{None};
ghost use Rattle.lus_meaning.specs.Refusals.{FollowsRules, IsWithinLimits};
ghost use Rattle.meaning_rows.specs.AcceptedRows.{names_apart, constant_before, truth_for_a_condition, division_by_one, divisor_with_a_constant, slow_as_its_clock, merge_on_a_clock, defined_once, defined_output_and_local, function_without_state, assumed_last_output, mode_before, five_hundred};

/// Names, labels and modes: a name for a node, a stream and a mode, and a label for items of three kinds; a constant
/// used behind its text; a function that calls one; an assumption of an output's last value; a mode behind its text.
pub fn accepted_name_rows()
    ensures twice { FollowsRules names_apart }
    ensures known { FollowsRules constant_before }
    ensures state { FollowsRules function_without_state }
    ensures assumed { FollowsRules assumed_last_output }
    ensures mode { FollowsRules mode_before }
{}

/// Types and numbers: a truth value for a condition; divisions by 1 and by -1; a divisor with a constant.
pub fn accepted_type_rows()
    ensures clash { FollowsRules truth_for_a_condition }
    ensures zero { FollowsRules division_by_one }
    ensures constant { FollowsRules divisor_with_a_constant }
{}

/// Clocks and equations: a local on its clock; branches of a merge on theirs; two names with an equation each; an
/// output and a local with one.
pub fn accepted_equation_rows()
    ensures clock { FollowsRules slow_as_its_clock }
    ensures merge { FollowsRules merge_on_a_clock }
    ensures twice { FollowsRules defined_once }
    ensures input { FollowsRules defined_output_and_local }
{}

/// The limits: 500 properties.
pub fn accepted_limit_rows()
    ensures rules { FollowsRules five_hundred }
    ensures properties { IsWithinLimits five_hundred None }
{}
