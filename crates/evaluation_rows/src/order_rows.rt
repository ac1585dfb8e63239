//! Worked rows of the order in which an instant is evaluated, with the programs of `specs/OrderRows.antt`.

ghost use Rattle.evaluation_rows.specs.OrderRows.{Evaluates, operating, operating_parts, calling_next, calling_parts, condact_next, condact_parts, with_import, import_parts, late_pre, late_parts, calling_late, late_call_parts, late_condact, late_condact_parts, with_conditions, condition_parts, with_mode, mode_parts};

/// The operands of an operator come from left to right, inner ones first.
pub fn operands_row()
    ensures { Evaluates operating operating_parts }
{}

/// A callee is evaluated at its call, behind the arguments; of a condact the condition comes first.
pub fn callee_row()
    ensures call { Evaluates calling_next calling_parts }
    ensures condact { Evaluates condact_next condact_parts }
{}

/// An import is evaluated before its parent's equations. A ghost variable of it that reads an output comes directly
/// behind the equation of that output, and its guarantee with the conditions.
pub fn import_row()
    ensures { Evaluates with_import import_parts }
{}

/// What stands under `pre` and reads a name whose equation comes later is late: it comes directly behind that equation,
/// before the next one.
pub fn late_part_row()
    ensures { Evaluates late_pre late_parts }
{}

/// An argument that reads such a name is late, and so are the callee's equation that reads the input, and what stands
/// under `pre` in the callee and reads that equation's name: of these that one comes last, though it stands first.
pub fn late_callee_row()
    ensures { Evaluates calling_late late_call_parts }
{}

/// The condition of a condact is evaluated before the callee, also in a late argument: it waits for what it needs
/// itself.
pub fn late_condact_row()
    ensures { Evaluates late_condact late_condact_parts }
{}

/// The conditions come behind the equations: assumptions, assertions, properties. A call that stands in no equation is
/// evaluated before an assertion in it.
pub fn conditions_row()
    ensures { Evaluates with_conditions condition_parts }
{}

/// What a mode requires is evaluated where the mode is named, and before each ensure.
pub fn mode_row()
    ensures { Evaluates with_mode mode_parts }
{}
