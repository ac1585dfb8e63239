//! The laws of the translation for checked programs.

ghost use Rattle.path_laws.specs.Laws.{ClockChainsEnd, EachBounds, EachBreaks, EachHasTraces, EachHolds};
ghost use Rattle.path_laws.specs.Laws.{EachIsWellTyped, EachLemmas, EachProperties, EachRunsArePaths, EachTraces};

/// In a checked program the clock of each stream of a declaration is the base clock, or a flag says it whose clock is
/// such again: after no more clocks than the declaration has streams the base clock comes.
pub fn clock_chains_end()
    ensures { ClockChainsEnd }
{}

/// In a checked program each declaration has its types, clocks and places, at every depth of calls, and the sources of
/// its names have different names.
pub fn each_is_well_typed()
    ensures { EachIsWellTyped }
{}

/// Of each declaration of a checked program the runs are paths, each path is that of one run, and its properties
/// have in each state of a run the truth of their formulas. A formula is true in all reachable states exactly where
/// it is true in each state of a run at a lawful instant, and a property holds exactly where no path ends with its
/// formula false.
pub fn each_runs_are_paths()
    ensures runs { EachRunsArePaths }
    ensures lemmas { EachLemmas }
    ensures properties { EachProperties }
{}

/// The trace of a path of a declaration of a checked program has the path's frame.
pub fn each_traces()
    ensures { EachTraces }
{}

/// A property of a declaration of a checked program holds whose formula is true in all reachable states, and where
/// no path of at most d + 1 states ends with its formula false it is true at each lawful instant up to d. A path
/// that breaks a property breaks it by its frame, at the last instant.
pub fn each_verdicts()
    ensures valid { EachHolds }
    ensures bounded { EachBounds }
    ensures broken { EachBreaks }
{}

/// The trace of a path whose numbers are of sizes of at most 2^63 - 1 fits the program, the path's frame is its frame,
/// and it has no other.
pub fn each_has_traces()
    ensures { EachHasTraces }
{}
