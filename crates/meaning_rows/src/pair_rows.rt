//! Worked rows of two equations of a node: the two programs of `specs/PairRows.antt`.

ghost use Rattle.std.specs.Prelude.{[], ◌∷◌, None};
ghost use Rattle.lus_tree.specs.Tree.{declared_node};
ghost use Rattle.lus_meaning.specs.Run.{equations};
ghost use Rattle.lus_meaning.specs.Cycle.{NoCycle};
ghost use Rattle.lus_meaning.specs.Order.{IsLeastEquationOrder, IsStuck, NeedsEquation};
ghost use Rattle.lus_meaning.specs.Refusals.{IsChecked, IsWithinLimits};
ghost use Rattle.meaning_rows.specs.PairRows.{against, against_node, circle, circle_node};

/// A node with an input, two locals and a free name, whose first equation needs its second one, follows the
/// rules and is within the limits.
pub fn against_row()
    ensures checked { IsChecked (declared_node against_node ∷ []) }
    ensures within { IsWithinLimits (declared_node against_node ∷ []) None }
    ensures order { IsLeastEquationOrder against (equations against_node) (1 ∷ 0 ∷ []) }
{}

/// `x = not y` and `y = pre x -> x` need each other.
pub fn circle_row()
    ensures stuck { IsStuck 2 (NeedsEquation circle (equations circle_node)) [] }
    ensures circle { NoCycle circle → ⊥ }
{}
