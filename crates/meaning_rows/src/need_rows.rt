//! Worked rows of what a name needs at its own instant, with the programs of `specs/NeedRows.antt` and of
//! `specs/Loops.antt`.

ghost use Rattle.std.specs.Prelude.{[], ◌∷◌, codes};
ghost use Rattle.lus_meaning.specs.Run.{equations};
ghost use Rattle.lus_meaning.specs.Depends.{Rank, IsRanked};
ghost use Rattle.lus_meaning.specs.Cycle.{NoCycle, Reaches};
ghost use Rattle.lus_meaning.specs.Order.{IsEquationOrder, IsLeastEquationOrder};
ghost use Rattle.meaning_rows.specs.Loops.{direct, late, late_rank};
ghost use Rattle.meaning_rows.specs.NeedRows.{needing, import_mode_circle, late_mode, own_mode_circle, condition_circle, argument_circle, merge_circle, clocked, chained, chained_node, apart, apart_node};

/// `x = d(x) + 1` has a rank where d's output is late, and none where it is not.
pub fn late_circle_row()
    ensures ranked { IsRanked late late_rank }
    ensures circle { (r : Rank) → IsRanked direct r → ⊥ }
    ensures reaches { NoCycle direct → ⊥ }
    ensures late { Reaches late (codes "x" ∷ []) (codes "x" ∷ []) → ⊥ }
{}

/// A minus, a call, a condact with its condition, `when`, `merge`, a clock and a mode need their operands at their own
/// instant. What stands under `pre`, or is an argument that the callee reads under `pre` alone, is not needed.
pub fn needs_row()
    ensures minus { Reaches needing (codes "a" ∷ []) (codes "r" ∷ []) }
    ensures plain_call { Reaches needing (codes "p" ∷ []) (codes "r" ∷ []) }
    ensures condition { Reaches needing (codes "g" ∷ []) (codes "k" ∷ []) }
    ensures condact { Reaches needing (codes "h" ∷ []) (codes "r" ∷ []) }
    ensures sampled { Reaches needing (codes "b" ∷ []) (codes "r" ∷ []) }
    ensures clock { Reaches needing (codes "b" ∷ []) (codes "d" ∷ []) }
    ensures free_clock { Reaches needing (codes "l" ∷ []) (codes "d" ∷ []) }
    ensures merged { Reaches needing (codes "m" ∷ []) (codes "r" ∷ []) }
    ensures merge_clock { Reaches needing (codes "m" ∷ []) (codes "d" ∷ []) }
    ensures mode { Reaches needing (codes "z" ∷ []) (codes "r" ∷ []) }
    ensures late { Reaches needing (codes "q" ∷ []) (codes "r" ∷ []) → ⊥ }
    ensures late_call { Reaches needing (codes "w" ∷ []) (codes "r" ∷ []) → ⊥ }
    ensures late_condact { Reaches needing (codes "v" ∷ []) (codes "r" ∷ []) → ⊥ }
    ensures other { Reaches needing (codes "g" ∷ []) (codes "r" ∷ []) → ⊥ }
    ensures turned { Reaches needing (codes "r" ∷ []) (codes "a" ∷ []) → ⊥ }
    ensures input { Reaches needing (codes "r" ∷ []) (codes "c" ∷ []) → ⊥ }
{}

/// Circles through a mode of an import, a mode, the condition and the argument of a condact, and the clock of a merge.
pub fn circles_row()
    ensures import_mode { NoCycle import_mode_circle → ⊥ }
    ensures late_mode { Reaches late_mode (codes "y" ∷ []) (codes "y" ∷ []) → ⊥ }
    ensures own_mode { NoCycle own_mode_circle → ⊥ }
    ensures condition { NoCycle condition_circle → ⊥ }
    ensures argument { NoCycle argument_circle → ⊥ }
    ensures merge { NoCycle merge_circle → ⊥ }
    ensures clock { Reaches clocked (codes "s" ∷ []) (codes "y" ∷ []) }
    ensures no_clock { Reaches clocked (codes "y" ∷ []) (codes "s" ∷ []) → ⊥ }
{}

/// Equations in the order against their text, by a call and a condact. In an order each equation stands once, after
/// those that it needs.
pub fn chained_order_row()
    ensures turned { IsEquationOrder chained (equations chained_node) (1 ∷ 2 ∷ 0 ∷ []) → ⊥ }
    ensures too_few { IsEquationOrder chained (equations chained_node) (2 ∷ 1 ∷ []) → ⊥ }
    ensures twice { IsEquationOrder chained (equations chained_node) (2 ∷ 1 ∷ 0 ∷ 0 ∷ []) → ⊥ }
    ensures another { IsEquationOrder chained (equations chained_node) (2 ∷ 1 ∷ 0 ∷ 3 ∷ []) → ⊥ }
    ensures order { IsLeastEquationOrder chained (equations chained_node) (2 ∷ 1 ∷ 0 ∷ []) }
{}

/// Of two equations that do not need each other both orders are orders, and that of the text is the least one.
pub fn least_order_row()
    ensures least { IsLeastEquationOrder apart (equations apart_node) (0 ∷ 1 ∷ []) }
    ensures order { IsEquationOrder apart (equations apart_node) (1 ∷ 0 ∷ []) }
    ensures not_least { IsLeastEquationOrder apart (equations apart_node) (1 ∷ 0 ∷ []) → ⊥ }
{}
