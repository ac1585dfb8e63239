//! A worked row of constants, with the program of `specs/ConstantRows.antt`.

ghost use Rattle.std.specs.Prelude.{◌≡◌, true, false, [], ◌∷◌};
ghost use Rattle.lus_meaning.specs.Value.{flag};
ghost use Rattle.lus_meaning.specs.Run.{IsRun};
ghost use Rattle.lus_meaning.specs.Verdict.{throughout};
ghost use Rattle.meaning_rows.specs.RowParts.{truths};
ghost use Rattle.meaning_rows.specs.ConstantRows.{constants, constants_frame};

/// Constants of a program, a contract and a node have the values that their definitions have by those before them, and
/// a callee has its own. A constant is there where the clock of its place is on.
pub fn constants_row()
    ensures run { IsRun constants 2 throughout constants_frame }
    ensures properties { truths constants 2 constants_frame ≡ (flag false ∷ flag true ∷ []) ∷ [] }
{}
