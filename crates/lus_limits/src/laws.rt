//! The laws by which limits are counted without unfolding calls.

ghost use Rattle.lus_limits.specs.Instances.{MadeOfCallees};
ghost use Rattle.lus_limits.specs.Widths.{WidthByText, WidthIsPlain, WidthCuts};
ghost use Rattle.lus_limits.specs.Counts.{ContractByText, PropertiesByText, CountCuts, PropertyCuts};
ghost use Rattle.lus_limits.specs.Summaries.{SummaryByText};
ghost use Rattle.lus_limits.specs.Frames.{SummaryByItems};
ghost use Rattle.lus_limits.specs.FrameTerms.{SitesInAnyOrder};
ghost use Rattle.lus_limits.specs.Nodes.{NodeTermsKnown};
ghost use Rattle.lus_limits.specs.OwnTerms.{OwnTermsByItems};
ghost use Rattle.lus_limits.specs.SizeCuts.{SizeSummaryCuts, TermsCut};
ghost use Rattle.lus_limits.specs.SizeSummaries.{SizeSummaryByText, TermsBySummaries, LimitsByPeaks};
ghost use Rattle.lus_limits.specs.Sizes.{ContractSizesByText, FramesByText, TermsByText, BesideCuts, AboveCuts};

/// The instance of a declaration of a checked program is made of its text and of the instances of its callees.
pub fn made_of_callees()
    ensures { MadeOfCallees }
{}

/// In a checked program the width of a declaration's frame is that of its own cells, and for each call that of what
/// is held of it and of its callee's frame. A node's variables are those of its frame. Sums of widths past a bound are
/// known to be past it from widths that are cut there.
pub fn width_by_text()
    ensures widths { WidthByText }
    ensures plain { WidthIsPlain }
    ensures cuts { WidthCuts }
{}

/// In a checked program how many items a declaration's contract has, and how many properties the declaration, is
/// counted in its own text and by the counts of its callees' contracts, and up to a bound by counts that are cut there.
pub fn properties_by_text()
    ensures contracts { ContractByText }
    ensures properties { PropertiesByText }
    ensures counts { CountCuts }
    ensures cuts { PropertyCuts }
{}

/// In a checked program the sizes of a contract's terms are those by its own text and the sizes of its imports, and a
/// term of a declaration's system passes a limit where one of its own text does, or one of a callee's frame, or what
/// is owed to a callee. Sizes up to bounds are known from sizes that are cut there.
pub fn sizes_by_text()
    ensures contracts { ContractSizesByText }
    ensures frames { FramesByText }
    ensures terms { TermsByText }
    ensures beside { BesideCuts }
    ensures above { AboveCuts }
{}

/// In a checked program what callers need of a declaration, each number cut, is known from its own text and from what
/// is needed of its callees.
pub fn summary_by_text()
    ensures { SummaryByText }
{}

/// In a checked program what callers need of the sizes of a declaration's terms is finite, and known from its own text
/// and from what is needed of its callees; so are the greatest levels and parts of the terms of a node's system, which
/// tell whether some term passes a limit.
pub fn size_summary_by_text()
    ensures summaries { SizeSummaryByText }
    ensures terms { TermsBySummaries }
    ensures limits { LimitsByPeaks }
{}

/// What callers need of the sizes of a declaration's terms is known, cut past the limits, from what is needed of its
/// callees, cut as well.
pub fn size_summaries_cut()
    ensures summaries { SizeSummaryCuts }
    ensures terms { TermsCut }
{}

/// The greatest sizes of a declaration's own terms are those of its items, one by one, and of its free streams.
pub fn own_terms_by_items()
    ensures { OwnTermsByItems }
{}

/// In a checked program what stands for the calls of a declaration is as large in the order of their numbers and in
/// that of the text.
pub fn sites_in_any_order()
    ensures { SitesInAnyOrder }
{}

/// In a checked program what callers need of the sizes of a declaration's terms is made item by item.
pub fn summary_by_items()
    ensures { SummaryByItems }
{}

/// In a checked program of which all needs are known, these tell the greatest sizes of the terms of each node's system.
pub fn node_terms_known()
    ensures { NodeTermsKnown }
{}
