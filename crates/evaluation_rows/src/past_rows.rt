//! Worked rows of the first value outside 128 bits, with the programs of `specs/PastRows.antt`.

ghost use Rattle.std.specs.Prelude.{◌≡◌, ◌^◌, Some, None, pos, []};
ghost use Rattle.lus_tree.specs.declared.expression.Operator.TheVariants as operators;
ghost use Rattle.kind_num.specs.declared.Op.TheVariants as ops;
ghost use Rattle.lus_meaning.specs.Value.{whole};
ghost use Rattle.lus_meaning.specs.Trace.{IsFrameOf};
ghost use Rattle.lus_evaluation.specs.Past.{past_of_numbers, past_of_minus};
ghost use Rattle.lus_evaluation.specs.Outcome.{StaysWithin, MeetsPast};
ghost use Rattle.evaluation_rows.specs.PastRows.{column, product_past, growing, growing_frame, two, two_frame, scaling, scaling_frame, merging, merging_frame, merging_lines, sampling, sampling_frame, resting, resting_frame, argued, argued_frame, argued_lines, least, greatest, minus_one, told};

/// A product that grows by the factor 2^62 is outside at instant 3; three instants stay within.
pub fn growing_row()
    ensures trace { IsFrameOf [] growing 4 growing_frame }
    ensures within { StaysWithin growing growing_frame 3 }
    ensures past { MeetsPast growing growing_frame 4 (column 51) 3 (product_past (pos (2 ^ 124))) }
{}

/// Of two values outside at one instant the first one counts. What stands under `pre` comes behind the equation for
/// which it waits, and before the next one.
pub fn two_values_row()
    ensures trace { IsFrameOf [] two 3 two_frame }
    ensures past { MeetsPast two two_frame 3 (column 68) 2 (product_past (pos (2 ^ 124))) }
{}

/// A value outside in a callee is told by its place in the callee's text.
pub fn callee_past_row()
    ensures trace { IsFrameOf [] scaling 3 scaling_frame }
    ensures past { MeetsPast scaling scaling_frame 3 (column 50) 2 (product_past (pos (2 ^ 124))) }
{}

/// A part is evaluated where its own clock is on: a branch of a merge where the name has its truth value alone, the
/// operand of `when` also where the name has the other one.
pub fn clocks_row()
    ensures merge { IsFrameOf merging_lines merging 3 merging_frame }
    ensures merge_within { StaysWithin merging merging_frame 3 }
    ensures sampled { IsFrameOf merging_lines sampling 3 sampling_frame }
    ensures sampled_past { MeetsPast sampling sampling_frame 3 (column 3) 2 (product_past (pos (2 ^ 124))) }
{}

/// A callee is evaluated where it runs, the arguments of a condact also where its condition is false.
pub fn condact_row()
    ensures callee { IsFrameOf merging_lines resting 3 resting_frame }
    ensures callee_within { StaysWithin resting resting_frame 3 }
    ensures argument { IsFrameOf argued_lines argued 3 argued_frame }
    ensures argument_past { MeetsPast argued argued_frame 3 (column 3) 2 (product_past (pos (2 ^ 124))) }
{}

/// The ends of 128 bits, by each operator. A minus is told as taken from 0, and of `mod` the quotient counts.
pub fn operators_row()
    ensures sum { past_of_numbers operators.Add greatest (pos 1) ≡ Some (told ops.Add greatest (pos 1)) }
    ensures sum_within { past_of_numbers operators.Add greatest (pos 0) ≡ None }
    ensures difference { past_of_numbers operators.Sub least (pos 1) ≡ Some (told ops.Sub least (pos 1)) }
    ensures difference_within { past_of_numbers operators.Sub least (pos 0) ≡ None }
    ensures product { past_of_numbers operators.Mul least minus_one ≡ Some (told ops.Mul least minus_one) }
    ensures product_within { past_of_numbers operators.Mul greatest minus_one ≡ None }
    ensures quotient { past_of_numbers operators.Div least minus_one ≡ Some (told ops.Div least minus_one) }
    ensures quotient_within { past_of_numbers operators.Div greatest minus_one ≡ None }
    ensures remainder { past_of_numbers operators.Mod least minus_one ≡ Some (told ops.Div least minus_one) }
    ensures minus { past_of_minus (whole least) ≡ Some (told ops.Sub (pos 0) least) }
    ensures minus_within { past_of_minus (whole greatest) ≡ None }
    ensures order { past_of_numbers operators.Less least greatest ≡ None }
{}
