//! Worked rows of the frame of a trace, with the program of `specs/TraceRows.antt`.

ghost use Rattle.std.specs.Prelude.{◌≡◌, [], ◌∷◌, codes};
ghost use Rattle.lus_meaning.specs.Value.{absent};
ghost use Rattle.lus_meaning.specs.Frame.{entry};
ghost use Rattle.lus_meaning.specs.Recompute.{sample};
ghost use Rattle.lus_meaning.specs.Replay.{frame_on};
ghost use Rattle.lus_meaning.specs.Trace.{IsFrameOf};
ghost use Rattle.meaning_rows.specs.Written.{naturals};
ghost use Rattle.meaning_rows.specs.TraceRows.{g_values, f_values, k_values, h_values, listing, listing_lines, lines_with, lines_of_no_matter, listed_frame, IsOtherRun, other_output, other_first_in_import, other_local, other_first, other_default, other_first_default, other_held_local};

/// The lines of a trace give the free names and the first values of the frames of calls, by the calls on the way. What
/// they list of an import's output or of an argument is no matter.
pub fn nested_trace_row()
    ensures frame { IsFrameOf listing_lines listing 3 listed_frame }
    ensures no_matter { IsFrameOf lines_of_no_matter listing 3 listed_frame }
    ensures other_input { IsFrameOf (lines_with (naturals (1 ∷ 2 ∷ 4 ∷ []))) listing 3 listed_frame → ⊥ }
{}

/// A run with another free value or another first value is not the frame of the trace.
pub fn other_frame_row()
    ensures other_output { IsOtherRun other_output }
    ensures other_first_in_import { IsOtherRun other_first_in_import }
    ensures other_local { IsOtherRun other_local }
    ensures other_first { IsOtherRun other_first }
    ensures other_default { IsOtherRun other_default }
    ensures other_held_local { IsOtherRun other_held_local }
    ensures other_first_default { IsOtherRun other_first_default }
{}

/// The frame on a way of calls, which are counted from 1; where there is no such call it has no values.
pub fn way_row()
    ensures top { sample 3 (entry (frame_on listed_frame []) (codes "u")) ≡ naturals (9 ∷ 0 ∷ 2 ∷ []) }
    ensures one { sample 3 (entry (frame_on listed_frame (1 ∷ [])) (codes "g")) ≡ g_values }
    ensures two { sample 3 (entry (frame_on listed_frame (1 ∷ 2 ∷ [])) (codes "f")) ≡ f_values }
    ensures second { sample 3 (entry (frame_on listed_frame (2 ∷ [])) (codes "f")) ≡ k_values }
    ensures third { sample 3 (entry (frame_on listed_frame (3 ∷ [])) (codes "f")) ≡ h_values }
    ensures zero { entry (frame_on listed_frame (0 ∷ [])) (codes "f") 1 ≡ absent }
    ensures none { entry (frame_on listed_frame (1 ∷ 3 ∷ [])) (codes "f") 1 ≡ absent }
{}
