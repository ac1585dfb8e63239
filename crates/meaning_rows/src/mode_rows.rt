//! Worked rows of modes, with the programs of `specs/ModeRows.antt`.

ghost use Rattle.std.specs.Prelude.{◌≡◌, true, false, [], ◌∷◌, codes};
ghost use Rattle.lus_tree.specs.declared.place.Sort.TheVariants.{Bool as Flags, Int as Numbers};
ghost use Rattle.lus_meaning.specs.Value.{flag};
ghost use Rattle.lus_meaning.specs.Contract.{body, guaranteed, ensured, one_mode_active};
ghost use Rattle.lus_meaning.specs.Run.{IsRun, first_sorts};
ghost use Rattle.lus_meaning.specs.Verdict.{throughout};
ghost use Rattle.meaning_rows.specs.RowParts.{kinds, truths};
ghost use Rattle.meaning_rows.specs.ModeRows.{three_modes, three_modes_frame, modes_when, modes_when_frame, modes_alone, modes_alone_frame, mode_memory, mode_memory_frame};

/// A mode is active where each of its requires is true, and an ensure is asked only there. One mode is active
/// where some mode is. A later ensure and a guarantee read modes.
pub fn three_modes_row()
    ensures run { IsRun three_modes 5 throughout three_modes_frame }
    ensures kinds { kinds three_modes
        ≡ (body, []) ∷ (guaranteed, []) ∷ (ensured (codes "up"), []) ∷ (ensured (codes "up"), [])
        ∷ (ensured (codes "zero"), []) ∷ (one_mode_active, []) ∷ [] }
    ensures properties { truths three_modes 5 three_modes_frame
        ≡ (flag true ∷ flag false ∷ flag false ∷ flag false ∷ flag false ∷ [])
        ∷ (flag true ∷ flag false ∷ flag true ∷ flag false ∷ flag false ∷ [])
        ∷ (flag true ∷ flag true ∷ flag true ∷ flag true ∷ flag true ∷ [])
        ∷ (flag false ∷ flag true ∷ flag true ∷ flag true ∷ flag true ∷ [])
        ∷ (flag true ∷ flag true ∷ flag true ∷ flag false ∷ flag true ∷ [])
        ∷ (flag true ∷ flag false ∷ flag true ∷ flag true ∷ flag false ∷ [])
        ∷ [] }
{}

/// A mode that requires nothing is always active. A mode of a frame is absent where the frame is not active.
pub fn empty_mode_row()
    ensures run { IsRun modes_when 3 throughout modes_when_frame }
    ensures alone { IsRun modes_alone 2 throughout modes_alone_frame }
    ensures properties { truths modes_alone 2 modes_alone_frame
        ≡ (flag true ∷ flag false ∷ []) ∷ (flag true ∷ flag true ∷ []) ∷ [] }
{}

/// `pre` in a mode has its own first value, by its number.
pub fn mode_memory_row()
    ensures run { IsRun mode_memory 3 throughout mode_memory_frame }
    ensures sorts { first_sorts mode_memory ≡ Numbers ∷ Flags ∷ Numbers ∷ Flags ∷ [] }
    ensures properties { truths mode_memory 3 mode_memory_frame
        ≡ (flag false ∷ flag true ∷ flag true ∷ [])
        ∷ (flag false ∷ flag false ∷ flag true ∷ [])
        ∷ (flag true ∷ flag true ∷ flag false ∷ [])
        ∷ (flag true ∷ flag false ∷ flag true ∷ [])
        ∷ [] }
{}
