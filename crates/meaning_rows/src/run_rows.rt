//! Worked rows of what a run is, with the program of `specs/RunRows.antt`.

ghost use Rattle.lus_meaning.specs.Run.{IsRun};
ghost use Rattle.lus_meaning.specs.Verdict.{throughout};
ghost use Rattle.meaning_rows.specs.RunRows.{running, running_frame, first_alone, next_alone, alone_frame, alone_off_beat, equation, ghost_equation, callee, argument, inactive_argument, inactive_output, shared_output, other_type, absent_input, off_its_clock, absent_on_its_clock, first_of_other_type, too_few_firsts, too_many_firsts, too_long, other_name, too_few_calls, too_many_calls};

/// A frame that is a run, and a run on a beat.
pub fn run_row()
    ensures run { IsRun running 2 throughout running_frame }
    ensures beat { IsRun next_alone 2 first_alone alone_frame }
    ensures input_off_beat { IsRun next_alone 2 first_alone alone_off_beat → ⊥ }
    ensures absent_on_beat { IsRun next_alone 2 throughout alone_frame → ⊥ }
{}

/// An equation of the node, of an import and of a callee holds, and a callee has its arguments where it is active.
pub fn unbalanced_row()
    ensures equation { IsRun running 2 throughout equation → ⊥ }
    ensures ghost_equation { IsRun running 2 throughout ghost_equation → ⊥ }
    ensures callee { IsRun running 2 throughout callee → ⊥ }
    ensures argument { IsRun running 2 throughout argument → ⊥ }
    ensures inactive_argument { IsRun running 2 throughout inactive_argument → ⊥ }
    ensures inactive_output { IsRun running 2 throughout inactive_output → ⊥ }
    ensures shared_output { IsRun running 2 throughout shared_output → ⊥ }
{}

/// A name has a value of its type exactly where its clock is on, and a first value has the type of its `pre`.
pub fn untyped_row()
    ensures other_type { IsRun running 2 throughout other_type → ⊥ }
    ensures absent_input { IsRun running 2 throughout absent_input → ⊥ }
    ensures off_its_clock { IsRun running 2 throughout off_its_clock → ⊥ }
    ensures absent_on_its_clock { IsRun running 2 throughout absent_on_its_clock → ⊥ }
    ensures first_of_other_type { IsRun running 2 throughout first_of_other_type → ⊥ }
    ensures too_few_firsts { IsRun running 2 throughout too_few_firsts → ⊥ }
    ensures too_many_firsts { IsRun running 2 throughout too_many_firsts → ⊥ }
{}

/// A frame has a stream for each name, with a value for each instant, and a frame for each call.
pub fn unshaped_row()
    ensures too_long { IsRun running 2 throughout too_long → ⊥ }
    ensures other_name { IsRun running 2 throughout other_name → ⊥ }
    ensures too_few_calls { IsRun running 2 throughout too_few_calls → ⊥ }
    ensures too_many_calls { IsRun running 2 throughout too_many_calls → ⊥ }
{}
