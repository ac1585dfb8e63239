//! A path of a program of the other rows, and its trace.

ghost use Rattle.translation_rows.specs.AgainstRow.{AgainstBreaks, AgainstTrace};

/// A path of two states at whose last the third property is false, and its trace: an input, a free name and a first
/// value.
pub fn against_trace_row()
    ensures breaks { AgainstBreaks }
    ensures trace { AgainstTrace }
{}
