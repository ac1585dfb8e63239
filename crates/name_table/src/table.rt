//! A table of names.

ghost use Rattle.std.specs.Prelude.{◌≡◌, ◌↔◌, false, true, not, [], IfOk, OnErr, OnOk, IsTrue, MatchOption, length, map};
ghost use Rattle.lus_meaning.specs.Depends.{named_in};
ghost use Rattle.lus_meaning.specs.WellMade.{AreDistinct};
ghost use Rattle.name_table.specs.Names.{add, number_of};

use indexmap::IndexSet;
use std::alloc::{AllocError, Global};
use std::marker::Model;

/// Names, compared by their bytes, each with a number. Contracts see the names in the order of
/// their numbers, which count from 0: a finite map from names to numbers.
#[derive(Drop)]
pub struct NameTable {
    names: IndexSet<String>,
}

impl Model for NameTable {
    ghost use Rattle.std.specs.Prelude.{List, map};
    ghost use Rattle.std.specs.String.{string_bytes};
    ghost use Rattle.lus_tree.specs.Tree.{Name};
    ghost use Rattle.lus_meaning.specs.WellMade.{AreDistinct};

    ghost Value = { List Name };

    ghost view = { λ t. map string_bytes t.names.keys };

    ghost invariant = { λ t. AreDistinct (map string_bytes t.names.keys) };
}

impl NameTable {
    /// A table without names.
    pub fn new(alloc: Global) -> Self
        ensures { result ≡ [] }
    {
        NameTable {
            names: IndexSet::new(alloc),
        }
    }

    /// Adds a name that is new, with the next number, and tells whether it is new.
    ///
    /// # Errors
    ///
    /// Want of memory; the table is then as it was.
    pub fn add(&mut self, alloc: Global, name: &str) -> Result<bool, AllocError>
        ensures new { IfOk result (λ b. b ≡ not (named_in name.now self.old)) }
        ensures names { OnOk result (self.new ≡ add self.old name.now) }
        ensures kept { OnErr result (self.new ≡ self.old) }
    {
        if self.has(name) {
            return Ok(false);
        }
        let owned = String::from_str(alloc, name)?;
        self.names.insert(owned)?;
        Ok(true)
    }

    /// A table of these names in their order, where no two are the same.
    ///
    /// # Errors
    ///
    /// Want of memory.
    pub fn distinct(alloc: Global, names: &[&str]) -> Result<Option<Self>, AllocError>
        ensures { IfOk result (λ o. MatchOption o (AreDistinct (map (λ x. x.now) names.now) → ⊥)
            (λ t. AreDistinct (map (λ x. x.now) names.now) × (t ≡ map (λ x. x.now) names.now))) }
    {
        let mut table = NameTable::new(alloc);
        for name in names {
            if !table.add(alloc, *name)? {
                return Ok(None);
            }
        }
        Ok(Some(table))
    }

    /// How many names there are.
    pub fn len(&self) -> usize
        ensures { result ≡ length self.now }
    {
        self.names.len()
    }

    /// Whether there are none.
    pub fn is_empty(&self) -> bool
        ensures { IsTrue result ↔ (self.now ≡ []) }
    {
        self.names.is_empty()
    }

    /// The number of a name.
    pub fn number(&self, name: &str) -> Option<usize>
        ensures { MatchOption result (named_in name.now self.now ≡ false)
            (λ i. (named_in name.now self.now ≡ true) × (i ≡ number_of self.now name.now)) }
    {
        self.names.get_index_of(name)
    }

    /// Whether the name has a number.
    pub fn has(&self, name: &str) -> bool
        ensures { result ≡ named_in name.now self.now }
    {
        self.names.contains(name)
    }
}
