//! The laws of the rules: of refusals, of names, and of the width of a node.

ghost use Rattle.lus_meaning.specs.RuleLaws.{OneRefusal, NotBoth, NamesOnce, WidthByCallees, CutSums};

/// A program is refused at one place and for one rule at most, and none that follows the rules within the limits is.
pub fn one_refusal()
    ensures one { OneRefusal }
    ensures not_both { NotBoth }
{}

/// In a checked program each name of a declaration stands once.
pub fn names_once()
    ensures { NamesOnce }
{}

/// The width of a node is counted by the widths of its callees, and a sum past a limit from parts that are cut there.
pub fn width_by_callees()
    ensures widths { WidthByCallees }
    ensures sums { CutSums }
{}
