//! Worked rows of slow clocks, with the programs of `specs/SamplingRows.antt`.

ghost use Rattle.lus_meaning.specs.Run.{IsRun};
ghost use Rattle.lus_meaning.specs.Verdict.{throughout};
ghost use Rattle.meaning_rows.specs.SamplingRows.{sampling, sampling_frame, nesting, nesting_frame};

/// `0 -> (x when c)` and `pre (x when c)` run on the slow clock, and `(0 -> x) when c` and `(pre x) when c` on the fast
/// one. A literal is there where the clock of its place is on, in each branch of a merge too.
pub fn sampling_row()
    ensures run { IsRun sampling 4 throughout sampling_frame }
{}

/// A clock of a clock: absent where the outer clock is off, and where its own name is false.
pub fn clock_of_clock_row()
    ensures run { IsRun nesting 4 throughout nesting_frame }
{}
