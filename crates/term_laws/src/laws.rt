//! The laws of the systems of checked programs.

ghost use Rattle.term_laws.specs.Laws.{EachFormulas, MildSystems, SizesAreCounted, SmallSystems, SmallTerms};

/// The system of each declaration of a checked program is mild: its terms fit its shapes, those of a state and the next
/// alone speak of a next state, no divisor is 0, and no number and no divisor weighs more than 2^63.
pub fn mild_systems()
    ensures { MildSystems }
{}

/// The system of a node or function of a program within its limits has at most 20,000 variables and at most 500
/// formulas of properties.
pub fn small_systems()
    ensures { SmallSystems }
{}

/// The system of each declaration of a checked program has as many formulas as the declaration has properties.
pub fn as_many_formulas()
    ensures { EachFormulas }
{}

/// The sizes that the limits count (`term_sizes`) are those of the terms of the system of each declaration of a checked
/// program: each term has at most the levels and parts of some of them, and each of them is reached by some term.
pub fn sizes_are_counted()
    ensures { SizesAreCounted }
{}

/// So of a checked program within its limits each term of the system of a node or function has at most 4,000 levels and
/// at most 1,000,000 parts.
pub fn small_terms()
    ensures { SmallTerms }
{}
