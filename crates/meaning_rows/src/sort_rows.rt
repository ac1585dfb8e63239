//! A worked row of the types of first values, with the program of `specs/SortRows.antt`.

ghost use Rattle.std.specs.Prelude.{◌≡◌, []};
ghost use Rattle.lus_meaning.specs.Scene.{call_instance, outputs_of};
ghost use Rattle.lus_meaning.specs.Run.{first_sorts};
ghost use Rattle.meaning_rows.specs.SortRows.{sorted, sorts};

/// The first value of each `pre` has the type of its operand, whatever the operand's form.
pub fn first_sorts_row()
    ensures sorts { first_sorts sorted ≡ sorts }
{}

/// A call that is not there has no outputs.
pub fn no_call_row()
    ensures zero { outputs_of (call_instance sorted 0) ≡ [] }
    ensures five { outputs_of (call_instance sorted 5) ≡ [] }
{}
