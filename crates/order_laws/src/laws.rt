//! The laws of what comes before a part.

ghost use Rattle.order_laws.specs.Laws.{ComesFirst, OperandsComeBefore, PartsHaveOwnPast, FirstPastByRows};
ghost use Rattle.order_laws.specs.Needed.{NeededNamesComeBefore, NeededArgumentsComeBefore, NeededInputsComeBefore, RememberedOperandsAreWithin};
ghost use Rattle.order_laws.specs.Needed.{FrameInputsComeBefore, FrameConditionsComeBefore};
ghost use Rattle.order_laws.specs.Needed.{GivenNamesAreWithin, ArgumentsAreWithin, ConditionsAreWithin};
ghost use Rattle.order_laws.specs.Rows.{RowsHaveOwnPast};

/// In a least order what stands before another part in turn comes before it, where all that it waits for the other one
/// waits for too, or comes before that anyway.
pub fn comes_first()
    ensures { ComesFirst }
{}

/// Of a checked program, in the row of a run of a declaration: of an expression of the frame at the end of a way of
/// calls whose own operands are within 128 bits, the operations that are outside are its own one, exactly if that is.
pub fn own_past_by_rows()
    ensures { RowsHaveOwnPast }
{}

/// In the evaluation of an instant of a run of such a declaration, where no part that comes before is outside 128 bits,
/// the operations of a part that are outside in the row of the instant are its own one, exactly if that part is. So the
/// first part with an operation outside, at the first instant that has one, is the first value outside.
pub fn first_past_by_rows()
    ensures own { PartsHaveOwnPast }
    ensures first { FirstPastByRows }
{}

/// In the evaluation of an instant of a run of such a declaration a part's own operands come before it, and so do
/// the own parts of what the modes require that it names, those of imports too.
pub fn operands_come_before()
    ensures { OperandsComeBefore }
{}

/// In the evaluation of an instant of a run of such a declaration a name that a part needs at its instant, and that an
/// equation gives, of the part's frame, of one on the way there or of the one that it calls: the right side of that
/// equation comes before the part, with all its own parts. So does an argument, if the whole of its call needs all that
/// the argument needs, as it does if it needs the input for which the argument stands. And so do an argument of a
/// call on the way to the part's frame, be it an import, if the part's whole needs the input for which it stands,
/// and the condition while which such a call runs, if the part's whole needs the beat of the call's frame.
pub fn needed_names_come_before()
    ensures names { NeededNamesComeBefore }
    ensures arguments { NeededArgumentsComeBefore }
    ensures inputs { NeededInputsComeBefore }
    ensures frame_inputs { FrameInputsComeBefore }
    ensures frame_conditions { FrameConditionsComeBefore }
{}

/// In the row of such a run: where no part of a front of the evaluation is outside 128 bits, the right sides that stand
/// in it have no operation outside, nor have the arguments that do, nor the condition of the call that comes next.
/// Where none of all parts is, the operand of each `pre` among them has none.
pub fn evaluated_is_within()
    ensures given { GivenNamesAreWithin }
    ensures arguments { ArgumentsAreWithin }
    ensures conditions { ConditionsAreWithin }
    ensures remembered { RememberedOperandsAreWithin }
{}
