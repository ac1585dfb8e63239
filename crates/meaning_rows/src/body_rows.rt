//! Worked rows of one node on one clock, with the programs of `specs/BodyRows.antt`.

ghost use Rattle.std.specs.Prelude.{◌≡◌, ◌<◌, ℕ, suc, Bool, true, false, [], ◌∷◌, codes, map};
ghost use Rattle.lus_meaning.specs.Value.{flag, not_value};
ghost use Rattle.lus_meaning.specs.Frame.{Frame, entry};
ghost use Rattle.lus_meaning.specs.Contract.{Property};
ghost use Rattle.lus_meaning.specs.Run.{IsRun};
ghost use Rattle.lus_meaning.specs.Property.{properties, IsLawful};
ghost use Rattle.lus_meaning.specs.Verdict.{Breaks, Holds, throughout};
ghost use Rattle.lus_meaning.specs.Label.{label_of};
ghost use Rattle.lus_meaning.specs.Trace.{IsFrameOf};
ghost use Rattle.meaning_rows.specs.RowParts.{meetings, property_at, truths};
ghost use Rattle.meaning_rows.specs.BodyRows.{asserting, asserting_frame, asserting_lines, free, free_frame, free_lines, output_checked, output_checked_frame, toggle, toggle_frame, toggle_lines};

/// `x = true -> not pre x` is true, false, true, whatever the first values are. `x or pre x` is
/// true throughout.
pub fn toggle_row()
    ensures run { (v w : Bool) → IsRun toggle 3 throughout (toggle_frame v w) }
    ensures trace { (v w : Bool) → IsFrameOf (toggle_lines v w) toggle 3 (toggle_frame v w) }
    ensures properties { (v w : Bool) → truths toggle 3 (toggle_frame v w)
        ≡ (flag true ∷ flag true ∷ flag true ∷ []) ∷ [] }
    ensures meets { (v w : Bool) → meetings toggle 3 (toggle_frame v w) ≡ true ∷ true ∷ true ∷ [] }
    ensures lawful { (v w : Bool) → IsLawful toggle throughout (toggle_frame v w) 2 }
{}

/// In each run of it the output alternates, and the property holds.
pub fn toggle_alternates()
    ensures start { (n : ℕ) (f : Frame) → IsRun toggle n throughout f → 0 < n → entry f (codes "x") 0 ≡ flag true }
    ensures step { (n : ℕ) (f : Frame) (t : ℕ) → IsRun toggle n throughout f → suc t < n → entry f (codes "x") (suc t)
        ≡ not_value (entry f (codes "x") t) }
    ensures holds { (other : Property) → Holds toggle (property_at toggle 0 other) }
{}

/// The same node with its output as the property, in line 4 from column 15 on: a trace that lists
/// nothing has a frame that breaks it at instant 1.
pub fn broken_row()
    ensures run { IsRun output_checked 2 throughout output_checked_frame }
    ensures trace { IsFrameOf [] output_checked 2 output_checked_frame }
    ensures properties { truths output_checked 2 output_checked_frame ≡ (flag true ∷ flag false ∷ []) ∷ [] }
    ensures meets { meetings output_checked 2 output_checked_frame ≡ true ∷ true ∷ [] }
    ensures lawful { IsLawful output_checked throughout output_checked_frame 1 }
    ensures breaks { (other : Property) →
        Breaks output_checked (property_at output_checked 0 other) output_checked_frame 1 }
    ensures label { map label_of (properties output_checked) ≡ codes "property @4:15" ∷ [] }
{}

/// Where an assertion is false, an instant is not lawful, and no property breaks there.
pub fn assertion_row()
    ensures run { IsRun asserting 1 throughout asserting_frame }
    ensures trace { IsFrameOf asserting_lines asserting 1 asserting_frame }
    ensures properties { truths asserting 1 asserting_frame ≡ (flag true ∷ []) ∷ [] }
    ensures meets { meetings asserting 1 asserting_frame ≡ false ∷ [] }
    ensures lawless { IsLawful asserting throughout asserting_frame 0 → ⊥ }
    ensures holds { (other : Property) → Holds asserting (property_at asserting 0 other) }
{}

/// A name that no equation defines has any values: those of a trace, or false where it lists none.
pub fn free_name_row()
    ensures run { (v w : Bool) → IsRun free 2 throughout (free_frame v w) }
    ensures trace { (v w : Bool) → IsFrameOf (free_lines v w) free 2 (free_frame v w) }
    ensures unlisted { IsFrameOf [] free 2 (free_frame false false) }
    ensures properties { (v w : Bool) → truths free 2 (free_frame v w) ≡ (flag v ∷ flag w ∷ []) ∷ [] }
    ensures meets { (v w : Bool) → meetings free 2 (free_frame v w) ≡ true ∷ true ∷ [] }
    ensures lawful { (v w : Bool) → IsLawful free throughout (free_frame v w) 1 }
{}
