//! Laws of the rules, over the definitions alone: each function is its contract.

ghost use Rattle.std.specs.Prelude.{◌≡◌, ◌↔◌, ℕ, List, [], All, Contains, map, true, Some, None};
ghost use Rattle.kind_num.specs.declared.Shape.{Shape as ShapeOf};
ghost use Rattle.proof_checker.specs.declared.rule.Rule.{Rule as RuleName};
ghost use lib.IntN.{ℤ, ◌*ℤ◌};
ghost use Rattle.proof_steps.specs.declared.Literal.{Literal as SignedLiteral};
ghost use Rattle.proof_checker.specs.declared.outside.Outside.TheVariants.{Nothing, One};
ghost use Rattle.proof_checker.specs.Derived.{outside, meets};
ghost use Rattle.std.specs.Int.{int_div_euclid};
ghost use Rattle.proof_steps.specs.View.{Inequality, Sum, Move, theory, added};
ghost use Rattle.proof_steps.specs.Meaning.{Values, Solves, HaveNoSolution, clause_true, sum_of};
ghost use Rattle.proof_checker.specs.Theory.{of_sum, value};
ghost use Rattle.proof_checker.specs.Rules.{IsOnlyOutside, AreMet, combination, IsFirst, IsRight};
ghost use Rattle.proof_checker.specs.Check.{verdict, refuted, broken, unfinished, move_fault};

/// What the checker finds outside a set of literals: that exactly one literal of the clause is
/// outside, and that none is.
pub fn what_is_outside()
    ensures one { (set clause : List SignedLiteral) (l : SignedLiteral) →
        (outside set clause ≡ One l) ↔ IsOnlyOutside set clause l }
    ensures nothing { (set clause : List SignedLiteral) → (outside set clause ≡ Nothing) ↔ All (Contains set) clause }
{}

/// The test of hints is the rule: each but the last has exactly one literal outside.
pub fn hints_that_are_met()
    ensures { (known : List (List SignedLiteral)) (set : List SignedLiteral) (hints : List ℕ) →
        (meets known set hints ≡ true) ↔ AreMet known set hints }
{}

/// A line is the sum of its parts' inequalities, each times its multiplier: the divisor times the
/// line's terms has the same sum for all values, and the bound is rounded down.
pub fn lines_are_combinations()
    ensures { (atoms : List Inequality) (clause : List SignedLiteral) (lines : List Inequality) (v : ℕ → ℤ) (t : Sum) (r : Inequality)
        → of_sum atoms clause lines t ≡ value r
        → (t.divisor *ℤ sum_of v r.terms ≡ combination atoms clause lines (λ i. sum_of v i.terms) t.parts)
        × (r.bound ≡ int_div_euclid (combination atoms clause lines (λ i. i.bound) t.parts) t.divisor) }
{}

/// The verdict names exactly the first atom or step that breaks a rule, atoms before steps, with
/// the first of its rules in their order; where none breaks one it says whether some step gives
/// the empty clause.
pub fn what_verdicts_say()
    ensures broken { (shapes : List ShapeOf) (atoms : List Inequality) (clauses : List (List SignedLiteral))
        (more : List Inequality) (moves : List Move) (n : ℕ) (rule : RuleName) →
        (verdict shapes atoms clauses more moves ≡ broken n rule) ↔ IsFirst shapes atoms clauses more moves n
        rule }
    ensures refuted { (shapes : List ShapeOf) (atoms : List Inequality) (clauses : List (List SignedLiteral))
        (more : List Inequality) (moves : List Move) → (verdict shapes atoms clauses more moves ≡ refuted) ↔
        (IsRight shapes atoms clauses more moves × Contains (map added moves) []) }
    ensures unfinished { (shapes : List ShapeOf) (atoms : List Inequality) (clauses : List (List SignedLiteral))
        (more : List Inequality) (moves : List Move) → (verdict shapes atoms clauses more moves ≡ unfinished) ↔
        (IsRight shapes atoms clauses more moves × (¬ Contains (map added moves) [])) }
{}

/// Where the hints of a derived step are met, its clause is true under all values that make the
/// clauses before it true.
pub fn derived_steps_follow()
    ensures { (atoms : List Inequality) (known : List (List SignedLiteral)) (clause : List SignedLiteral)
        (hints : List ℕ) (v : Values) → AreMet known clause hints → Solves atoms v known
        → clause_true atoms v clause ≡ true }
{}

/// The clause of a theory step that breaks no rule is true under all values whatsoever.
pub fn theory_steps_hold()
    ensures { (shapes : List ShapeOf) (atoms : List Inequality) (known : List (List SignedLiteral))
        (clause : List SignedLiteral) (lines : List Sum) (v : Values) → move_fault shapes atoms known
        (theory clause lines) ≡ None → clause_true atoms v clause ≡ true }
{}

/// Where no atom and no step of a proof breaks a rule and some step gives the empty clause, no
/// values satisfy the clauses.
pub fn refutations_leave_no_values()
    ensures { (shapes : List ShapeOf) (atoms : List Inequality) (clauses : List (List SignedLiteral))
        (more : List Inequality) (moves : List Move) → IsRight shapes atoms clauses more moves → Contains
        (map added moves) [] → HaveNoSolution atoms clauses }
{}
