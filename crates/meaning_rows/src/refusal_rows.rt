//! Worked rows: the programs of `specs/RefusalRows.antt`, and where and why each is refused.

ghost use Rattle.std.specs.Prelude.{None, Some, codes};
ghost use Rattle.lus_tree.specs.Reason.{name_twice, name_unknown, type_clash, arity_clash, not_linear, zero_divisor, not_constant, heavy, clock_clash, equation_twice, input_defined, cycle, node_recursion, not_stateless, assume_reads_output, no_node, main_unknown, mode_unknown, too_many};
ghost use Rattle.lus_meaning.specs.Faults.{fault};
ghost use Rattle.lus_meaning.specs.Refusals.{IsRefusedFor, IsClocked, FollowsRules, IsWithinLimits};
ghost use Rattle.lus_meaning.specs.EquationFaults.{IsEquationFault};
ghost use Rattle.lus_meaning.specs.Grammatical.{IsGrammatical};
ghost use Rattle.meaning_rows.specs.PlacedParts.{at};
ghost use Rattle.meaning_rows.specs.RefusalRows.{nothing, product_of_two_names, truth_for_a_number, faster_than_its_clock, call_of_itself, assumed_output, no_such_mode, label_twice, constant_behind, too_many_arguments, division_by_zero, divisor_with_a_name, past_all_weights, as_heavy_as_can_be, zero_behind, heavy_behind, heavy_but_for_a_zero, defined_twice, defined_input, function_with_state, needs_each_other, clocks_in_a_circle, through_its_clock, counting_up, five_hundred_and_one, late_argument};

/// Names, labels and modes.
pub fn name_rows()
    ensures no_node { IsRefusedFor nothing None (fault no_node (at 1 1)) }
    ensures twice { IsRefusedFor label_twice None (fault name_twice (at 3 11)) }
    ensures behind { IsRefusedFor constant_behind None (fault name_unknown (at 2 9)) }
    ensures arity { IsRefusedFor too_many_arguments None (fault arity_clash (at 3 9)) }
    ensures recursion { IsRefusedFor call_of_itself None (fault node_recursion (at 2 9)) }
    ensures state { IsRefusedFor function_with_state None (fault not_stateless (at 2 9)) }
    ensures assumed { IsRefusedFor assumed_output None (fault assume_reads_output (at 2 20)) }
    ensures mode { IsRefusedFor no_such_mode None (fault mode_unknown (at 2 25)) }
{}

/// Types and numbers.
pub fn type_rows()
    ensures clash { IsRefusedFor truth_for_a_number None (fault type_clash (at 2 9)) }
    ensures linear { IsRefusedFor product_of_two_names None (fault not_linear (at 2 11)) }
    ensures zero { IsRefusedFor division_by_zero None (fault zero_divisor (at 2 11)) }
    ensures constant { IsRefusedFor divisor_with_a_name None (fault not_constant (at 2 20)) }
    ensures weight { IsRefusedFor past_all_weights None (fault heavy (at 2 9)) }
    ensures bearable { FollowsRules as_heavy_as_can_be }
{}

/// What has no value is at fault by its name or its division, and by nothing that rests on a value: a constant before its
/// text is no divisor 0 and no factor that is too great, and a division by 0 has no weight to multiply.
pub fn valueless_rows()
    ensures divisor { IsRefusedFor zero_behind None (fault name_unknown (at 2 15)) }
    ensures factor { IsRefusedFor heavy_behind None (fault name_unknown (at 2 31)) }
    ensures division { IsRefusedFor heavy_but_for_a_zero None (fault zero_divisor (at 2 12)) }
{}

/// Clocks and equations.
pub fn equation_rows()
    ensures clock { IsRefusedFor faster_than_its_clock None (fault clock_clash (at 2 9)) }
    ensures twice { IsRefusedFor defined_twice None (fault equation_twice (at 3 2)) }
    ensures input { IsRefusedFor defined_input None (fault input_defined (at 2 5)) }
    ensures circle { IsRefusedFor needs_each_other None (fault cycle (at 3 5)) }
    ensures clocks { IsRefusedFor clocks_in_a_circle None (fault cycle (at 2 5)) }
    ensures through { IsClocked through_its_clock × IsEquationFault through_its_clock (fault cycle (at 3 5)) }
    ensures late { FollowsRules late_argument }
{}

/// The main node, and the limits. A program of two nodes is one that the grammar gives.
pub fn limit_rows()
    ensures grammatical { IsGrammatical late_argument }
    ensures main { IsRefusedFor counting_up (Some (codes "nobody")) (fault main_unknown (at 1 1)) }
    ensures within { FollowsRules counting_up × IsWithinLimits counting_up (Some (codes "main")) }
    ensures properties { IsRefusedFor five_hundred_and_one None (fault (too_many 500) (at 1 6)) }
{}
