//! The laws of clocks, orders and runs.

ghost use Rattle.clock_laws.specs.Laws.{
  ExpressionsOnClocks,
  ContractsOnClocks,
  RunsOnClocks,
  OrderOrCircle,
  OneOrderOfEach,
  NothingNeedsItself,
  EachHasRank,
  OneRunAtMost,
  EachWellMade,
  ComputedRuns,
};

/// Of a tree of the grammar in which no rule of names, types, numbers and clocks is broken, whatever its equations and
/// circles: in a frame whose names have their values exactly on their clocks, at every depth of calls, each occurrence
/// of an expression has a value of its type exactly where the clock of its place is on, and what an item of its contract
/// says, or the requires of a mode, a truth value exactly where the frame is active; so have those of imports. Each run
/// is such a frame.
pub fn expressions_on_clocks()
    ensures expressions { ExpressionsOnClocks }
    ensures contracts { ContractsOnClocks }
    ensures runs { RunsOnClocks }
{}

/// Where names, types and left names of a program have no fault, the equations of a declaration have an order, in which
/// each comes after those that it needs, exactly where none needs itself at one instant. In a checked program there is
/// exactly one order in which again and again the least equation comes whose needs are listed.
pub fn equation_orders()
    ensures exists { OrderOrCircle }
    ensures least { OneOrderOfEach }
{}

/// In the tree of instances of a declaration of a checked program nothing needs itself at one instant, at whatever
/// depth of calls; so each name has a rank above those of all that it needs.
pub fn ranks()
    ensures returns { NothingNeedsItself }
    ensures ranked { EachHasRank }
{}

/// A declaration of a checked program has at most one run for a number of instants, a beat, first values and the values
/// of its inputs and free names.
pub fn one_run_at_most()
    ensures { OneRunAtMost }
{}

/// A declaration of a checked program is well made for choices that fit, and so is what it calls, at every depth: each
/// name is given by the caller or defined at most once, equations have as many values as names, calls as many arguments
/// as inputs, and first values have their types. So the frame that is computed from the choices in a number of rounds
/// is a run of them where its names have values of their types exactly on their clocks.
pub fn well_made()
    ensures made { EachWellMade }
    ensures computed { ComputedRuns }
{}
