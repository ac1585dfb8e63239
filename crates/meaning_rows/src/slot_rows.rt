//! Worked rows of the layout: what the variables of programs of the other rows stand for, with `specs/SlotRows.antt`.

ghost use Rattle.std.specs.Prelude.{◌≡◌, [], ◌∷◌, map};
ghost use Rattle.lus_tree.specs.declared.place.Sort.TheVariants.{Bool as Flags, Int as Numbers};
ghost use Rattle.lus_meaning.specs.Slots.{slots, width};
ghost use Rattle.meaning_rows.specs.ClockRows.{holding};
ghost use Rattle.meaning_rows.specs.ContractRows.{guarding, importing};
ghost use Rattle.meaning_rows.specs.CallRows.{held_pair};
ghost use Rattle.meaning_rows.specs.ItemRows.{items};
ghost use Rattle.meaning_rows.specs.ModeRows.{mode_memory};
ghost use Rattle.meaning_rows.specs.OwedRows.{two_calls};
ghost use Rattle.meaning_rows.specs.RunRows.{running};
ghost use Rattle.meaning_rows.specs.SlotRows.{signs, two_calls_signs, held_pair_signs, running_signs, guarding_signs, items_signs, mode_memory_signs, with_empty_contract, words};

/// A call under a condition has what it holds before its frame, in the caller's frame. An import's frame has no
/// assumptions of its own to keep.
pub fn layout_row()
    ensures held { map (λ s. s.path) (slots holding)
        ≡ [] ∷ [] ∷ [] ∷ [] ∷ [] ∷ [] ∷ (1 ∷ []) ∷ (1 ∷ []) ∷ (1 ∷ []) ∷ [] }
    ensures sorts { map (λ s. s.sort) (slots holding)
        ≡ Flags ∷ Flags ∷ Numbers ∷ Numbers ∷ Flags ∷ Numbers ∷ Flags ∷ Numbers ∷ Numbers ∷ [] }
    ensures width { width importing ≡ 10 }
{}

/// The variables of a frame are its beat, its names, the memory of each `pre`, whether each `->` has started, and for a
/// node with a contract whether its assumptions were true so far. What each call holds and its frame come after them.
pub fn variables_row()
    ensures two_calls { signs two_calls ≡ two_calls_signs }
    ensures held { signs held_pair ≡ held_pair_signs }
    ensures import { signs running ≡ running_signs }
    ensures condact { signs guarding ≡ guarding_signs }
    ensures nested { signs items ≡ items_signs }
    ensures empty { signs with_empty_contract ≡ words [] ("beat" ∷ "x" ∷ "y" ∷ "sofar" ∷ []) }
    ensures memories { signs mode_memory ≡ mode_memory_signs }
{}
