//! The laws of the translation.

ghost use Rattle.sys_meaning.specs.Law.{PathsToRuns, RunsArePathsLaw, RunsToPaths, TracesOfPaths, TruthsInRuns, WhatFollows};

/// The states of a run up to a lawful instant are a path of its declaration's system, where its text and those of all
/// that it calls and imports have their types and clocks.
pub fn runs_to_paths()
    ensures { RunsToPaths }
{}

/// The frame of a path is a run of as many instants as the path has states, it is lawful at the last, its states
/// are the path, and no other run is such.
pub fn paths_to_runs()
    ensures { PathsToRuns }
{}

/// Each property of such a declaration has in each state of a run the truth of its formula.
pub fn truths_in_runs()
    ensures { TruthsInRuns }
{}

/// Runs are paths, each path is that of one run, and properties have the truth of their formulas.
pub fn runs_are_paths()
    ensures { RunsArePathsLaw }
{}

/// Where runs are paths and each path is that of one run, a formula is true in all reachable states exactly where it
/// is true in each state of a run at a lawful instant, and a property holds exactly where no path ends with its
/// formula false.
pub fn what_follows()
    ensures { WhatFollows }
{}

/// The trace of a path has the path's frame.
pub fn traces_of_paths()
    ensures { TracesOfPaths }
{}
