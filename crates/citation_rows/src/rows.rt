//! What a fact may cite.

ghost use Rattle.std.specs.Prelude.{[], ◌∷◌};
ghost use Rattle.cert_rules.specs.Facts.{AreCited, held_fact};
ghost use Rattle.citation_rows.specs.Cited.{NoStepCites, NothingToCite, a_lemma, cite, first_flag, second_flag};

/// A lemma that stands before it, by its place and its term.
pub fn earlier_lemma()
    ensures { AreCited (a_lemma ∷ []) (cite 0 first_flag) }
{}

/// Nothing that isn't there.
pub fn citation_of_nothing()
    ensures none_before { NoStepCites [] (cite 0 first_flag) }
    ensures past_the_list { NoStepCites (a_lemma ∷ []) (cite 1 first_flag) }
{}

/// No list of facts begins with a step that cites.
pub fn nothing_to_cite()
    ensures { NothingToCite }
{}

/// No lemma by another term.
pub fn another_term()
    ensures { NoStepCites (a_lemma ∷ []) (cite 0 second_flag) }
{}

/// No entry of another kind.
pub fn no_lemma()
    ensures { NoStepCites (held_fact 0 0 0 ∷ []) (cite 0 first_flag) }
{}
