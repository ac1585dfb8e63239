//! Worked rows of what is read off the tree, with the programs of `specs/NumberRows.antt`.

ghost use Rattle.std.specs.Prelude.{◌≡◌, replicate, map};
ghost use Rattle.lus_tree.specs.Numbers.{IsNumbered};
ghost use Rattle.lus_meaning.specs.Contract.{first_token};
ghost use Rattle.meaning_rows.specs.PlacedParts.{at};
ghost use Rattle.meaning_rows.specs.CallRows.{calls_everywhere_node};
ghost use Rattle.meaning_rows.specs.NumberRows.{every_form, two_pres, two_arrows, import_and_condact, contract_and_body, default_and_body, constant_and_body};

/// A property without a text is named by the place where its expression begins, whatever the form.
pub fn first_token_row()
    ensures tokens { map first_token every_form ≡ replicate 14 (at 2 3) }
{}

/// The numbers of each kind of occurrence are 1 to their count, each once, over the contract, defaults, constants and
/// the body.
pub fn numbered_row()
    ensures everywhere { IsNumbered calls_everywhere_node }
    ensures two_pres { IsNumbered (two_pres 1 2) }
    ensures two_arrows { IsNumbered (two_arrows 1 2) }
    ensures import_and_condact { IsNumbered (import_and_condact 1 2) }
    ensures contract_and_body { IsNumbered (contract_and_body 1 2) }
    ensures default_and_body { IsNumbered (default_and_body 1 2) }
    ensures constant_and_body { IsNumbered (constant_and_body 1 2) }
{}

/// A number that stands twice, one that is left out, and 0 are no numbering.
pub fn unnumbered_row()
    ensures two_pres_twice { IsNumbered (two_pres 1 1) → ⊥ }
    ensures two_arrows_twice { IsNumbered (two_arrows 1 1) → ⊥ }
    ensures import_and_condact_twice { IsNumbered (import_and_condact 1 1) → ⊥ }
    ensures contract_and_body_twice { IsNumbered (contract_and_body 1 1) → ⊥ }
    ensures default_and_body_twice { IsNumbered (default_and_body 1 1) → ⊥ }
    ensures constant_and_body_twice { IsNumbered (constant_and_body 1 1) → ⊥ }
    ensures left_out { IsNumbered (two_pres 1 3) → ⊥ }
    ensures zero { IsNumbered (two_pres 0 1) → ⊥ }
{}
