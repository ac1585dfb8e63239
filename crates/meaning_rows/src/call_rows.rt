//! Worked rows of calls, with the programs of `specs/CallRows.antt`.

ghost use Rattle.std.specs.Prelude.{◌≡◌, true, false, [], ◌∷◌, codes};
ghost use Rattle.lus_meaning.specs.Value.{flag};
ghost use Rattle.lus_meaning.specs.Contract.{body, guaranteed, ensured, one_mode_active};
ghost use Rattle.lus_meaning.specs.Run.{IsRun};
ghost use Rattle.lus_meaning.specs.Verdict.{throughout};
ghost use Rattle.meaning_rows.specs.RowParts.{kinds, meetings, truths};
ghost use Rattle.meaning_rows.specs.CallRows.{sampled_call, sampled_call_frame, branches, branches_frame, deep_call, deep_call_frame, held_pair, held_pair_frame, calls_everywhere, calls_everywhere_frame, slow_operands, slow_operands_frame, inner_condact, inner_condact_frame};

/// `count(c when c)` counts the instants of the slow clock, and `count(c) when c` those of the fast one.
pub fn sampled_call_row()
    ensures run { IsRun sampled_call 4 throughout sampled_call_frame }
{}

/// Each branch of a merge has its calls on its own clock.
pub fn merge_branches_row()
    ensures run { IsRun branches 4 throughout branches_frame }
{}

/// A call in a callee runs where the callee runs and its own clock is on.
pub fn deep_call_row()
    ensures run { IsRun deep_call 4 throughout deep_call_frame }
{}

/// An equation takes all outputs of a call. A condact holds each of them, and on a slow clock it runs where that clock
/// is on and its condition is true.
pub fn several_outputs_row()
    ensures run { IsRun held_pair 4 throughout held_pair_frame }
{}

/// `->` and `pre` in the arguments and in the condition of a call run on the clock of the call.
pub fn slow_operands_row()
    ensures run { IsRun slow_operands 5 throughout slow_operands_frame }
{}

/// A condact that stands in an expression, on the base clock and on a slow one.
pub fn inner_condact_row()
    ensures run { IsRun inner_condact 4 throughout inner_condact_frame }
{}

/// Calls stand in every kind of item of a contract and of a body, and are numbered in the order of the text.
pub fn calls_everywhere_row()
    ensures run { IsRun calls_everywhere 2 throughout calls_everywhere_frame }
    ensures kinds { kinds calls_everywhere
        ≡ (body, []) ∷ (guaranteed, []) ∷ (guaranteed, 6 ∷ []) ∷ (ensured (codes "m"), [])
        ∷ (one_mode_active, []) ∷ [] }
    ensures properties { truths calls_everywhere 2 calls_everywhere_frame
        ≡ (flag false ∷ flag true ∷ [])
        ∷ (flag true ∷ flag true ∷ [])
        ∷ (flag true ∷ flag true ∷ [])
        ∷ (flag true ∷ flag false ∷ [])
        ∷ (flag false ∷ flag true ∷ [])
        ∷ [] }
    ensures meets { meetings calls_everywhere 2 calls_everywhere_frame ≡ false ∷ false ∷ [] }
{}
