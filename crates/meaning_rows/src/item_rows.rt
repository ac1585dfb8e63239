//! Worked rows of contracts that import contracts, with the programs of `specs/ItemRows.antt`.

ghost use Rattle.std.specs.Prelude.{◌≡◌, true, false, [], ◌∷◌, map};
ghost use Rattle.lus_meaning.specs.Run.{IsRun};
ghost use Rattle.lus_meaning.specs.Property.{properties};
ghost use Rattle.lus_meaning.specs.Verdict.{throughout};
ghost use Rattle.lus_meaning.specs.Label.{label_of};
ghost use Rattle.meaning_rows.specs.RowParts.{meetings, truths};
ghost use Rattle.meaning_rows.specs.ItemRows.{items, items_frame, items_labels, items_truths};

/// The items of an import stand at its place, also those of an import in it. A callee's assumptions, its imported ones
/// among them, are owed by each call, and asked where its frame is active.
pub fn items_row()
    ensures run { IsRun items 3 throughout items_frame }
    ensures properties { truths items 3 items_frame ≡ items_truths }
    ensures meets { meetings items 3 items_frame ≡ true ∷ true ∷ false ∷ [] }
{}

/// Each kind of property has its name: with a text or a place, and with the calls and imports on the way to it.
pub fn label_row()
    ensures labels { map label_of (properties items) ≡ items_labels }
{}
