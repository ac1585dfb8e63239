//! The laws of the traces of paths, as they are written and replayed.

ghost use Rattle.trace_laws.specs.Laws.{EachReadBack, EachReplays, NarrowAreSmall};

/// The trace of a path of at most 1,001 states that breaks a property of a node or function of a checked program, with
/// numbers of sizes of at most 2^63 - 1, fits the program, and each replay of it shows that the property breaks at the
/// last instant.
pub fn each_replays()
    ensures { EachReplays }
{
    path_laws::laws::each_has_traces();
    path_laws::laws::each_verdicts();
}

/// What is written of a trace that fits a checked program within its limits is read back, where its declarations and
/// their streams are named by identifiers, as those of a source are.
pub fn each_read_back()
    ensures { EachReadBack }
{
    rule_laws::laws::unfolded_instances();
    rule_laws::laws::one_instance();
    term_laws::laws::small_systems();
    trace_text::laws::read_back();
}

/// Numbers below 2^63 in size are of sizes of at most 2^63 - 1.
pub fn narrow_are_small()
    ensures { NarrowAreSmall }
{}
