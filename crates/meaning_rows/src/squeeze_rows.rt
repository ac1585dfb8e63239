//! Worked rows of squeezed frames, with the programs of `specs/SqueezeRows.antt`.

ghost use Rattle.std.specs.Prelude.{◌≡◌, [], ◌∷◌, map};
ghost use Rattle.lus_meaning.specs.Frame.{call_frame};
ghost use Rattle.lus_meaning.specs.Run.{IsRun};
ghost use Rattle.lus_meaning.specs.Verdict.{throughout};
ghost use Rattle.lus_meaning.specs.Squeeze.{squeeze, beats_before};
ghost use Rattle.meaning_rows.specs.CallRows.{held_pair_frame};
ghost use Rattle.meaning_rows.specs.SqueezeRows.{hold, uneven, hold_frame, squeezed_frame, pair_alone, middle, pair_frame};

/// A frame without the instants at which it is not active is a run on every instant. The frame of a condact in it keeps
/// the instants at which it does not run.
pub fn squeezed_row()
    ensures run { IsRun hold 4 uneven hold_frame }
    ensures squeezed { squeeze uneven hold_frame ≡ squeezed_frame }
    ensures still { IsRun hold 3 throughout squeezed_frame }
    ensures count { map (beats_before uneven) (0 ∷ 1 ∷ 2 ∷ 3 ∷ 4 ∷ []) ≡ 0 ∷ 1 ∷ 1 ∷ 2 ∷ 3 ∷ [] }
{}

/// The frame of a condact's call without the instants at which it does not run.
pub fn squeezed_call_row()
    ensures squeezed { squeeze middle (call_frame held_pair_frame 1) ≡ pair_frame }
    ensures run { IsRun pair_alone 2 throughout pair_frame }
    ensures count { map (beats_before middle) (0 ∷ 1 ∷ 2 ∷ 3 ∷ 4 ∷ []) ≡ 0 ∷ 0 ∷ 1 ∷ 2 ∷ 2 ∷ [] }
{}
