//! What the laws of the translation ask, of programs of the other rows.

ghost use Rattle.std.specs.Prelude.{[]};
ghost use Rattle.meaning_rows.specs.BodyRows.{asserting};
ghost use Rattle.sys_meaning.specs.Law.{TreeDistinct};
ghost use Rattle.sys_meaning.specs.System.{number_of};
ghost use Rattle.sys_meaning.specs.WellTyped.{WellTyped};
ghost use Rattle.translation_rows.specs.AssumingRow.{assuming};

/// A node with an equation, an assertion and a property has its types, clocks and places.
pub fn asserting_typed_row()
    ensures { WellTyped (λ j key. ⊥) asserting }
{}

/// The sources of its names have different names.
pub fn asserting_distinct_row()
    ensures { TreeDistinct asserting (number_of asserting) [] }
{}

/// So has a node with an assumption, an equation and an assertion.
pub fn assuming_typed_row()
    ensures typed { WellTyped (λ j key. ⊥) assuming }
    ensures distinct { TreeDistinct assuming (number_of assuming) [] }
{}
