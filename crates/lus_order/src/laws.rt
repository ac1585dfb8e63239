//! What is read in an expression, and numbers in place of names, by the own graph of a declaration.

ghost use Rattle.lus_order.specs.Backs.{BacksAreOwn, FlaggedAreCircles};
ghost use Rattle.lus_order.specs.ClockCircles.{MarkedAreCircles};
ghost use Rattle.lus_order.specs.KnownModes.{KnownAreSummaries};
ghost use Rattle.lus_order.specs.MarkedNames.{RowsFind};
ghost use Rattle.lus_order.specs.Numbered.{WaysAreNumbered};
ghost use Rattle.lus_order.specs.OwnNodes.{RowsAreNodes};
ghost use Rattle.lus_order.specs.OwnOrders.{OrdersAreLeast};
ghost use Rattle.lus_order.specs.OwnReads.{ReadsAreOwn};
ghost use Rattle.lus_order.specs.SameCallees.{ReadsByCallees};
ghost use Rattle.lus_order.specs.WholeOrders.{CirclesByLibrary, LibraryExact, OrdersByLibrary, ReadsByLibrary};

/// What an expression reads by the own graph of its declaration is what is read in it, with each mode replaced by
/// what that reads.
pub fn reads_are_own()
    ensures { ReadsAreOwn }
{}

/// In a graph of numbers that stands for edges between names a number leads to a name exactly where a way along the
/// edges leads there from one of the names that it reads.
pub fn ways_are_numbered()
    ensures { WaysAreNumbered }
{}

/// The rows that are made for a declaration stand for its own graph: its streams have the first numbers, in their
/// order, and its equations those behind them. A number leads to another exactly where the node of the own graph
/// does.
pub fn rows_are_nodes()
    ensures { RowsAreNodes }
{}

/// Where the rows stand for the own graph of a declaration whose left names have no fault, the least order of the
/// numbers of its equations, by what they lead to, is the least order of the equations in the tree of instances.
pub fn orders_are_least()
    ensures { OrdersAreLeast }
{}

/// Where the rows stand for the own graph of a declaration, and one more row for a list of names, what that leads
/// to are the names that ways along the edges find from those of the list.
pub fn rows_find()
    ensures { RowsFind }
{}

/// What is known of a declaration by the rows that stand for its own graph is its summary by that graph.
pub fn known_are_summaries()
    ensures { KnownAreSummaries }
{}

/// In the rows that stand for the own graph of a declaration names lead back to themselves exactly where they do
/// along its edges, as the left names of an equation on a circle do.
pub fn backs_are_own()
    ensures { BacksAreOwn }
{}

/// In the rows that stand for the own graph of a declaration the faults of equations that are flagged are those of
/// equations whose left names lead to themselves along its edges, each at the first of them.
pub fn flagged_are_circles()
    ensures { FlaggedAreCircles }
{}

/// By the library of all declarations the summaries of what a declaration calls and imports are exact, the circles by
/// its own graph are its faults of circles, and where the program has no fault of equations the order that is made of a
/// declaration is the least order of its equations in the tree of instances. The inputs to which its outputs lead
/// by its own graph are those on which they depend at the same instant in the tree of instances.
pub fn libraries_are_exact()
    ensures exact { LibraryExact }
    ensures circles { CirclesByLibrary }
    ensures orders { OrdersByLibrary }
    ensures reads { ReadsByLibrary }
{}

/// What a declaration reads goes by the summaries of those alone that it calls at the same instant and imports:
/// others that say the same of these give the same own graph, and its modes read the same.
pub fn reads_by_callees()
    ensures { ReadsByCallees }
{}

/// In the graph where each stream leads to that of its clock, unless an equation defines this, the streams that lead
/// to themselves are those whose clocks go in a circle among names without an equation.
pub fn marked_are_circles()
    ensures { MarkedAreCircles }
{}
