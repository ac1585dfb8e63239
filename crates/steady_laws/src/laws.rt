//! What the texts of checked programs give the translation by tables.

ghost use Rattle.steady_laws.specs.Laws.{
  ConstantsAreKept,
  ConstantsAreSmall,
  ConstantsOfInstances,
  DefaultsInOrder,
  EquationsAreSteady,
  FirstIsHeld,
  FoldedIsKnown,
  ItemsAreSteady,
  MemoriesAreSteady,
  MemoriesInOrder,
  OuterConstantsAreKept,
  OwnConstantsAreKept,
  PartsAreSteady,
  SitesAreSteady,
  StatementsAreSteady,
  TextsAreSteady,
  ValuesAreKept,
};

/// In a checked program each expression of a declaration is steady over the declaration's constants, and so is each
/// part of it: no constant part has a number of a size above 2^63 or a divisor 0, of a product one operand is
/// constant, and so is each divisor. So are the operand of each `pre`, the arguments of each call and import, the
/// conditions and defaults of calls, the right sides of equations, and what a body and a contract say. Each import
/// has a number from 1 on.
pub fn texts_are_steady()
    ensures texts { TextsAreSteady }
    ensures parts { PartsAreSteady }
    ensures memories { MemoriesAreSteady }
    ensures ordered_memories { MemoriesInOrder }
    ensures sites { SitesAreSteady }
    ensures equations { EquationsAreSteady }
    ensures items { ItemsAreSteady }
    ensures statements { StatementsAreSteady }
{}

/// A steady constant expression has by kept parts the value that it has, and that is what its text comes to where the
/// tables find the constants. So the defaults of each call that runs while a condition is true have the values that the
/// translation gives the outputs, in their order, and so what is held of these at first is the translation's.
pub fn values_are_kept()
    ensures values { ValuesAreKept }
    ensures folded { FoldedIsKnown }
    ensures defaults { DefaultsInOrder }
    ensures first { FirstIsHeld }
{}

/// In a checked program the constants of a declaration, each by the kept values of those before it, have the values
/// that its instance has; none of these is a number of a size above 2^63.
pub fn constants_are_kept()
    ensures outer { OuterConstantsAreKept }
    ensures own { OwnConstantsAreKept }
    ensures constants { ConstantsAreKept }
    ensures small { ConstantsAreSmall }
    ensures instances { ConstantsOfInstances }
{}
