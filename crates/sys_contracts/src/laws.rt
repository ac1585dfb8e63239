//! The items of a contract are those of the translation.

ghost use Rattle.sys_contracts.specs.Laws.{ItemsAreTranslated};

/// Where a sight finds what the translation finds at some numbers, and the items of each call and import are the
/// translation's at the numbers of its frame, the items of a contract are the translation's at these numbers.
pub fn items_are_translated()
    ensures { ItemsAreTranslated }
{}
