//! What the grammar gives of every tree that is read.

ghost use Rattle.source_laws.specs.Laws.{IdentifiedSources, GrammaticalSources};

/// In a source each constant, each node and contract node, and each input, output, local and ghost variable of these
/// is named by an identifier.
pub fn identified_sources()
    ensures { IdentifiedSources }
{}

/// The tree of a source is, its places aside, one that the grammar gives.
pub fn grammatical_sources()
    ensures { GrammaticalSources }
{}
