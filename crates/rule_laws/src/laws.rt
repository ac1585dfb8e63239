//! The laws of the programs that follow the rules.

ghost use Rattle.rule_laws.specs.Declarations.{DeclarationsFit};
ghost use Rattle.rule_laws.specs.Fitting.{ConstantsTyped, ExpressionsFit};
ghost use Rattle.rule_laws.specs.Laws.{CallsInPlace, FirstsInPlace, ImportsInPlace, MemoriesFound, NamedIsDeclared};
ghost use Rattle.rule_laws.specs.Laws.{OneInstance, StartsFound, TablesAgree, Unfolding};
ghost use Rattle.rule_laws.specs.Types.{SortsOfModes, SortsOfValues, TypesInRuns, TypesOfContracts, TypesOfModes};
ghost use Rattle.rule_laws.specs.Types.{TypesOfProperties, TypesOfValues};

/// In a checked program the instance of each declaration is unfolded to its end: each call occurrence and each
/// import, at every depth, has an instance of the declaration that it names.
pub fn unfolded_instances()
    ensures { Unfolding }
{}

/// An instance that is unfolded, of a declaration of a checked program, is the instance of the declaration; and
/// what is found by a name is a declaration. So what these laws say of the instance of a declaration holds of those
/// of its calls.
pub fn one_instance()
    ensures same { OneInstance }
    ensures declared { NamedIsDeclared }
{}

/// In a checked program the tables by which the rules know a declaration's names say of each name what its instance
/// has: its type, its clock, whether it is a constant, and then its value.
pub fn tables_agree()
    ensures { TablesAgree }
{}

/// In a checked program each call occurrence and each import has, at its number, an instance of the declaration
/// that it names, and first values have each the type of what stands under the `pre` of its number. Each `pre` and
/// each `->` is the one that is found by its number.
pub fn numbered_places()
    ensures calls { CallsInPlace }
    ensures imports { ImportsInPlace }
    ensures firsts { FirstsInPlace }
    ensures memories { MemoriesFound }
    ensures starts { StartsFound }
{}

/// In a checked program each expression of a declaration, parts included, fits where it stands: its operands have
/// the types that it takes, a name is a constant or a stream on the clock of its place, a call has the place of its
/// number with arguments and defaults of the types that its callee says, and a mode is one of the contract or of an
/// import. A constant expression has a value of its type.
pub fn expressions_fit()
    ensures parts { ExpressionsFit }
    ensures constants { ConstantsTyped }
{}

/// In a checked program the items of each declaration have their types and clocks: its streams under their names,
/// the two sides of its equations, what it assumes, guarantees, requires, ensures, asserts and checks, and the
/// arguments and outputs of its imports.
pub fn declarations_fit()
    ensures { DeclarationsFit }
{}

/// The law of types. In a checked program, in every frame whose names and first values have their types, those of
/// the frames of its calls too, each expression's value is of its type exactly where the clock of its place is on,
/// and what each mode requires is a truth value exactly where the beat is on. What a contract assumes, guarantees
/// and ensures is a truth value wherever the beat is on, and so is each property. The frames of runs are such
/// frames.
pub fn types_of_values()
    ensures values { TypesOfValues }
    ensures runs { TypesInRuns }
    ensures modes { TypesOfModes }
    ensures contracts { TypesOfContracts }
    ensures properties { TypesOfProperties }
{}

/// The literal law of types, of every tree of the grammar that breaks no rule of names, types and numbers, whatever
/// its clocks and equations: in every frame whose names and first values have their types where they are there,
/// those of the frames of its calls too, each expression's value is of its type where it is there, and what each
/// mode requires is a truth value where it is there.
pub fn sorts_of_values()
    ensures values { SortsOfValues }
    ensures modes { SortsOfModes }
{}
