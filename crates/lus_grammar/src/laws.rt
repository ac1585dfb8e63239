//! What holds of the grammar's texts: a law, and rows worked by hand.

ghost use Rattle.lus_grammar.specs.Source.{NumberedSources};
ghost use Rattle.lus_grammar.specs.Rows.{GroupedToTheLeft, ArrowsToTheRight, ClockOfTheWhole};

/// In each declaration of a source the `pre`, the `->`, and the calls with the imports have the numbers from 1 on, each
/// number once.
pub fn numbered_sources()
    ensures { NumberedSources }
{}

/// `a - b - c` is `(a - b) - c`.
pub fn grouped_to_the_left()
    ensures { GroupedToTheLeft }
{}

/// `a -> b -> c` is `a -> (b -> c)`, and its arrows are numbered from the left.
pub fn arrows_to_the_right()
    ensures { ArrowsToTheRight }
{}

/// `a -> b when c` is `(a -> b) when c`.
pub fn clock_of_the_whole()
    ensures { ClockOfTheWhole }
{}
