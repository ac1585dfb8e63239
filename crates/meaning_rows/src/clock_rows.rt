//! Worked rows of streams that are absent at some instants, with the programs of `specs/ClockRows.antt`.

ghost use Rattle.std.specs.Prelude.{◌≡◌, true, false, [], ◌∷◌};
ghost use Rattle.lus_meaning.specs.Value.{flag};
ghost use Rattle.lus_meaning.specs.Run.{IsRun};
ghost use Rattle.lus_meaning.specs.Property.{IsLawful};
ghost use Rattle.lus_meaning.specs.Verdict.{throughout};
ghost use Rattle.lus_meaning.specs.Trace.{IsFrameOf};
ghost use Rattle.meaning_rows.specs.RowParts.{meetings, truths};
ghost use Rattle.meaning_rows.specs.ClockRows.{holding, holding_frame, holding_lines, merging, merging_frame, merging_lines, slow, slow_frame, slow_lines};

/// A call on a slower clock counts the instants of that clock, and a merge joins its output with
/// a stream of the opposite clock.
pub fn merge_of_clocks_row()
    ensures run { IsRun merging 3 throughout merging_frame }
    ensures trace { IsFrameOf merging_lines merging 3 merging_frame }
    ensures properties { truths merging 3 merging_frame ≡ (flag true ∷ flag true ∷ flag false ∷ []) ∷ [] }
    ensures meets { meetings merging 3 merging_frame ≡ true ∷ true ∷ true ∷ [] }
    ensures lawful { IsLawful merging throughout merging_frame 2 }
{}

/// A call under a condition gives its default before it first runs, and its last output while the
/// condition is false.
pub fn held_output_row()
    ensures run { IsRun holding 3 throughout holding_frame }
    ensures trace { IsFrameOf holding_lines holding 3 holding_frame }
    ensures properties { truths holding 3 holding_frame
        ≡ (flag true ∷ flag true ∷ flag true ∷ []) ∷ (flag true ∷ flag false ∷ flag false ∷ []) ∷ [] }
    ensures meets { meetings holding 3 holding_frame ≡ true ∷ true ∷ true ∷ [] }
    ensures lawful { IsLawful holding throughout holding_frame 2 }
{}

/// `pre` on a slow clock looks at the last instant of that clock, not at the last instant.
pub fn slow_pre_row()
    ensures run { IsRun slow 4 throughout slow_frame }
    ensures trace { IsFrameOf slow_lines slow 4 slow_frame }
    ensures properties { truths slow 4 slow_frame ≡ (flag false ∷ flag false ∷ flag false ∷ flag true ∷ []) ∷ [] }
    ensures meets { meetings slow 4 slow_frame ≡ true ∷ true ∷ true ∷ true ∷ [] }
    ensures lawful { IsLawful slow throughout slow_frame 3 }
{}
