//! Worked rows of weights and of the values of constant expressions, with the names of `specs/WeightRows.antt`.

ghost use Rattle.std.specs.Prelude.{◌≡◌, true, [], ◌∷◌, None, Some, pos, neg_ℤ};
ghost use Rattle.lus_tree.specs.declared.expression.Operator.TheVariants.{Less, Add, Sub, Mul, Div, Mod};
ghost use Rattle.lus_meaning.specs.Value.{absent, flag, whole};
ghost use Rattle.meaning_rows.specs.WeightRows.{weighs, comes_to};
ghost use Rattle.meaning_rows.specs.Written.{the, truth_of, literal, opposite, previous, followed, combined, chosen, when_true, merged_on, calling};

/// A number weighs its size and a name 1; sums weigh the sum; `-`, `when` and `pre` weigh what their operand does, and 1.
pub fn plain_weights_row()
    ensures number { weighs (literal 7) ≡ Some 7 }
    ensures name { weighs (the "x") ≡ Some 1 }
    ensures constant { weighs (the "four") ≡ Some 4 }
    ensures sum { weighs (combined Add (the "x") (the "four")) ≡ Some 5 }
    ensures difference { weighs (combined Sub (the "x") (the "four")) ≡ Some 5 }
    ensures opposite { weighs (opposite (the "four")) ≡ Some 4 }
    ensures sampled { weighs (when_true (combined Add (the "x") (the "x")) "b") ≡ Some 2 }
    ensures previous { weighs (previous 1 (combined Add (the "x") (the "x"))) ≡ Some 1 }
    ensures call { weighs (calling 1 "f" (the "four" ∷ [])) ≡ Some 1 }
    ensures truth { weighs (truth_of true) ≡ None }
{}

/// A product weighs the size of its constant factor times the weight of the other, and of two constants the left one is
/// the factor: `four - 3` comes to 1 and weighs 7, `four - 2` comes to 2 and weighs 6.
pub fn product_weights_row()
    ensures left { weighs (combined Mul (the "four") (the "x")) ≡ Some 4 }
    ensures right { weighs (combined Mul (combined Add (the "x") (the "x")) (opposite (the "four"))) ≡ Some 8 }
    ensures both { weighs (combined Mul (combined Sub (the "four") (literal 3)) (combined Sub (the "four") (literal 2)))
        ≡ Some 6 }
{}

/// Two branches weigh what the heavier one does, and at least 1; a quotient what is divided does, and at least 1; a
/// remainder the size of the divisor, which is that of its value.
pub fn branch_weights_row()
    ensures choice { weighs (chosen (the "b") (literal 5) (the "x")) ≡ Some 5 }
    ensures least { weighs (chosen (the "b") (literal 0) (literal 0)) ≡ Some 1 }
    ensures first { weighs (followed 1 (literal 5) (the "x")) ≡ Some 5 }
    ensures merged { weighs (merged_on "b" (the "x") (literal 5)) ≡ Some 5 }
    ensures quotient { weighs (combined Div (combined Add (the "x") (the "four")) (literal 3)) ≡ Some 5 }
    ensures none { weighs (combined Div (literal 0) (literal 3)) ≡ Some 1 }
    ensures remainder { weighs (combined Mod (the "x") (the "four")) ≡ Some 4 }
    ensures divisor { weighs (combined Mod (the "x") (combined Sub (the "four") (literal 3))) ≡ Some 1 }
{}

/// A division by 0 has no weight, nor has a constant before its text, nor what needs their values.
pub fn unweighed_row()
    ensures quotient { weighs (combined Div (the "x") (the "nothing")) ≡ None }
    ensures remainder { weighs (combined Mod (the "x") (literal 0)) ≡ None }
    ensures sum { weighs (combined Add (literal 1) (combined Div (the "x") (literal 0))) ≡ None }
    ensures later { weighs (the "later") ≡ None }
    ensures factor { weighs (combined Mul (the "later") (the "x")) ≡ None }
    ensures divisor { weighs (combined Mod (the "x") (the "later")) ≡ None }
    ensures divided { weighs (combined Div (the "x") (the "later")) ≡ Some 1 }
{}

/// Constant expressions have their values by Euclid's division; a name that is no constant has none, nor has a division
/// by 0, a constant before its text, a choice between two types, or what is heavier than 2^63.
pub fn constant_values_row()
    ensures quotient { comes_to (combined Div (opposite (literal 7)) (literal 2)) ≡ whole (neg_ℤ (pos 4)) }
    ensures constant { comes_to (the "four") ≡ whole (pos 4) }
    ensures compared { comes_to (combined Less (literal 3) (the "four")) ≡ flag true }
    ensures chosen { comes_to (chosen (the "yes") (the "four") (literal 3)) ≡ whole (pos 4) }
    ensures name { comes_to (combined Sub (the "x") (the "x")) ≡ absent }
    ensures zero { comes_to (combined Div (the "four") (the "nothing")) ≡ absent }
    ensures later { comes_to (the "later") ≡ absent }
    ensures types { comes_to (chosen (the "yes") (the "four") (the "yes")) ≡ absent }
    ensures bearable { comes_to (literal 9223372036854775808) ≡ whole (pos 9223372036854775808) }
    ensures heavy { comes_to (literal 9223372036854775809) ≡ absent }
{}
