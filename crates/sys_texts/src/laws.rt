//! Terms by what names and numbers mean are the terms of the translation.

ghost use Rattle.sys_texts.specs.Laws.{PartsAreTerms, PresenceIsPresence, RightPartsAreTerms};

/// Where a sight finds what a stage of the translation finds, the part of each expression whose constants are not too
/// great is the translation's term, the parts of a right side are its terms, and a clock is on where it says so.
pub fn parts_are_terms()
    ensures parts { PartsAreTerms }
    ensures rights { RightPartsAreTerms }
    ensures presence { PresenceIsPresence }
{}
