//! A list of names of a scope.

ghost use Rattle.std.specs.Prelude.{◌≡◌};
ghost use Rattle.lus_scopes.specs.Meanings.{IsTable};

use crate::scope::{Entry, Extent};
use indexmap::IndexMap;

/// A list of names, of which these constants may be used, and a table of the first of each name.
#[derive(Clone, Copy)]
pub struct Layer<'a> {
    pub entries: &'a [Entry<'a>],
    pub table: &'a IndexMap<&'a str, Entry<'a>>,
    pub extent: Extent,
    ghost found: { IsTable entries.now table.now },
}

impl<'a> Layer<'a> {
    /// The same list, of which these constants may be used.
    pub fn within(self, extent: Extent) -> Self
        ensures entries { result.entries.now ≡ self.entry.entries.now }
        ensures extent { result.extent ≡ extent }
    {
        Layer {
            entries: self.entries,
            table: self.table,
            extent,
        }
    }
}
