//! The law of runs.

ghost use Rattle.run_laws.specs.Laws.{EachHasOneRun};

/// Of a checked program each declaration has for any number of instants, any beat, and choices that fit (first values,
/// and the values of inputs and free names, each of its type) exactly one run with these choices.
pub fn one_run()
    ensures { EachHasOneRun }
{}
