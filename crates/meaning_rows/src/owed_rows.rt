//! Worked rows of what calls owe, of assertions and of lawful instants, with the programs of `specs/OwedRows.antt`.

ghost use Rattle.std.specs.Prelude.{◌≡◌, true, false, [], ◌∷◌};
ghost use Rattle.lus_meaning.specs.Value.{flag};
ghost use Rattle.lus_meaning.specs.Contract.{Property, guaranteed, assumed};
ghost use Rattle.lus_meaning.specs.Run.{IsRun};
ghost use Rattle.lus_meaning.specs.Property.{IsLawful};
ghost use Rattle.lus_meaning.specs.FirstBreak.{AreBreaks, AreLawful};
ghost use Rattle.lus_meaning.specs.Verdict.{Breaks, Holds, throughout};
ghost use Rattle.meaning_rows.specs.RowParts.{kinds, meetings, property_at, truths};
ghost use Rattle.meaning_rows.specs.OwedRows.{two_calls, two_calls_frame, owing, deep_assertion, deep_assertion_frame, bounded, lawless_frame, broken_frame, never, first_at, no_run_frame, ending, ending_frame, impossible, impossible_frame};

/// Each of two plain calls owes the callee's assumption, which looks back along the instants of its own frame. Each
/// call's assertions say which instants are lawful.
pub fn two_calls_row()
    ensures run { IsRun two_calls 5 throughout two_calls_frame }
    ensures kinds { kinds two_calls ≡ (assumed, 1 ∷ []) ∷ (assumed, 2 ∷ []) ∷ [] }
    ensures properties { truths two_calls 5 two_calls_frame
        ≡ (flag true ∷ flag true ∷ flag true ∷ flag false ∷ flag true ∷ [])
        ∷ (flag true ∷ flag true ∷ flag false ∷ flag true ∷ flag true ∷ [])
        ∷ [] }
    ensures meets { meetings two_calls 5 two_calls_frame ≡ true ∷ true ∷ true ∷ false ∷ false ∷ [] }
{}

/// A call owes what its callee assumes, in a contract too. Neither a callee's calls nor an imported contract's are owed
/// above, and an import owes nothing.
pub fn direct_caller_row()
    ensures kinds { kinds owing
        ≡ (guaranteed, []) ∷ (guaranteed, 2 ∷ []) ∷ (assumed, 1 ∷ []) ∷ (assumed, 4 ∷ []) ∷ [] }
{}

/// An assertion of a callee's callee counts.
pub fn deep_assertion_row()
    ensures run { IsRun deep_assertion 3 throughout deep_assertion_frame }
    ensures properties { truths deep_assertion 3 deep_assertion_frame ≡ [] }
    ensures meets { meetings deep_assertion 3 deep_assertion_frame ≡ true ∷ false ∷ true ∷ [] }
{}

/// An instant behind one that is not lawful is not lawful, and nothing breaks there.
pub fn lawless_row()
    ensures run { IsRun bounded 3 throughout lawless_frame }
    ensures properties { truths bounded 3 lawless_frame ≡ (flag true ∷ flag false ∷ flag false ∷ []) ∷ [] }
    ensures meets { meetings bounded 3 lawless_frame ≡ true ∷ false ∷ true ∷ [] }
    ensures lawful { IsLawful bounded throughout lawless_frame 0 }
    ensures lawless { IsLawful bounded throughout lawless_frame 1 → ⊥ }
    ensures behind { IsLawful bounded throughout lawless_frame 2 → ⊥ }
    ensures there { (other : Property) → Breaks bounded (property_at bounded 0 other) lawless_frame 1 → ⊥ }
    ensures later { (other : Property) → Breaks bounded (property_at bounded 0 other) lawless_frame 2 → ⊥ }
{}

/// A property breaks where it is false for the first time, and does not hold.
pub fn first_break_row()
    ensures run { IsRun bounded 3 throughout broken_frame }
    ensures properties { truths bounded 3 broken_frame ≡ (flag true ∷ flag false ∷ flag false ∷ []) ∷ [] }
    ensures meets { meetings bounded 3 broken_frame ≡ true ∷ true ∷ true ∷ [] }
    ensures before { (other : Property) → Breaks bounded (property_at bounded 0 other) broken_frame 0 → ⊥ }
    ensures there { (other : Property) → Breaks bounded (property_at bounded 0 other) broken_frame 1 }
    ensures later { (other : Property) → Breaks bounded (property_at bounded 0 other) broken_frame 2 → ⊥ }
    ensures no_run { (other : Property) → Breaks bounded (property_at bounded 0 other) no_run_frame 0 → ⊥ }
    ensures holds { (other : Property) → Holds bounded (property_at bounded 0 other) → ⊥ }
{}

/// The break of each property and the number of lawful instants, of these two frames.
pub fn breaks_row()
    ensures none { AreBreaks bounded lawless_frame 3 never }
    ensures one { AreBreaks bounded broken_frame 3 (first_at 1) }
    ensures not_none { AreBreaks bounded broken_frame 3 never → ⊥ }
    ensures not_later { AreBreaks bounded broken_frame 3 (first_at 2) → ⊥ }
    ensures first { AreLawful bounded lawless_frame 3 1 }
    ensures all { AreLawful bounded broken_frame 3 3 }
    ensures not_fewer { AreLawful bounded broken_frame 3 2 → ⊥ }
    ensures not_more { AreLawful bounded lawless_frame 3 2 → ⊥ }
{}

/// Where an assumption is never true no instant is lawful, and each property holds.
pub fn impossible_row()
    ensures run { IsRun impossible 1 throughout impossible_frame }
    ensures properties { truths impossible 1 impossible_frame ≡ (flag false ∷ []) ∷ [] }
    ensures lawless { IsLawful impossible throughout impossible_frame 0 → ⊥ }
    ensures holds { (other : Property) → Holds impossible (property_at impossible 0 other) }
{}

/// A run breaks nothing at an instant that it does not have.
pub fn end_row()
    ensures run { IsRun ending 1 throughout ending_frame }
    ensures properties { truths ending 1 ending_frame ≡ (flag true ∷ []) ∷ [] }
    ensures behind { (other : Property) → Breaks ending (property_at ending 0 other) ending_frame 1 → ⊥ }
{}
