//! Worked rows of contracts, with the programs of `specs/ContractRows.antt`.

ghost use Rattle.std.specs.Prelude.{◌≡◌, true, false, [], ◌∷◌, codes};
ghost use Rattle.lus_meaning.specs.Value.{flag};
ghost use Rattle.lus_meaning.specs.Contract.{body, guaranteed, ensured, one_mode_active, assumed};
ghost use Rattle.lus_meaning.specs.Run.{IsRun};
ghost use Rattle.lus_meaning.specs.Property.{IsLawful};
ghost use Rattle.lus_meaning.specs.Verdict.{throughout};
ghost use Rattle.lus_meaning.specs.Trace.{IsFrameOf};
ghost use Rattle.meaning_rows.specs.RowParts.{kinds, meetings, truths};
ghost use Rattle.meaning_rows.specs.ContractRows.{guarding, guarding_frame, guarding_lines, importing, importing_frame, importing_lines};

/// An import adds its guarantee, its ensure and its mode to the properties, each by the way to
/// it. Its assumption says which instants are lawful.
pub fn import_row()
    ensures run { IsRun importing 3 throughout importing_frame }
    ensures trace { IsFrameOf importing_lines importing 3 importing_frame }
    ensures kinds { kinds importing
        ≡ (body, []) ∷ (guaranteed, 1 ∷ []) ∷ (ensured (codes "rise"), 1 ∷ []) ∷ (one_mode_active, []) ∷ [] }
    ensures properties { truths importing 3 importing_frame
        ≡ (flag false ∷ flag true ∷ flag false ∷ [])
        ∷ (flag true ∷ flag false ∷ flag true ∷ [])
        ∷ (flag true ∷ flag true ∷ flag true ∷ [])
        ∷ (flag true ∷ flag true ∷ flag true ∷ [])
        ∷ [] }
    ensures meets { meetings importing 3 importing_frame ≡ true ∷ true ∷ false ∷ [] }
    ensures lawful { IsLawful importing throughout importing_frame 1 }
    ensures lawless { IsLawful importing throughout importing_frame 2 → ⊥ }
{}

/// A callee's assumption is a property of its caller and is asked only where the callee runs. Its
/// assertion says which instants are lawful.
pub fn callee_assumption_row()
    ensures run { IsRun guarding 3 throughout guarding_frame }
    ensures trace { IsFrameOf guarding_lines guarding 3 guarding_frame }
    ensures kinds { kinds guarding ≡ (body, []) ∷ (assumed, 1 ∷ []) ∷ [] }
    ensures properties { truths guarding 3 guarding_frame
        ≡ (flag true ∷ flag false ∷ flag true ∷ []) ∷ (flag true ∷ flag false ∷ flag true ∷ []) ∷ [] }
    ensures meets { meetings guarding 3 guarding_frame ≡ true ∷ true ∷ false ∷ [] }
    ensures lawful { IsLawful guarding throughout guarding_frame 1 }
    ensures lawless { IsLawful guarding throughout guarding_frame 2 → ⊥ }
{}
