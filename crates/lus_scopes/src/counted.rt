//! Names that stand before a place, and which of them stand there once.

ghost use Rattle.std.specs.Prelude.{◌≡◌, ◌++◌, ◌∷◌, [], Some, cond, filter, is_some, IfOk, OnErr, OnOk};
ghost use Rattle.std.specs.Str.{bytes_eq};
ghost use Rattle.lus_tree.specs.Tree.{Name};
ghost use Rattle.lus_meaning.specs.Depends.{named_in};
ghost use Rattle.lus_meaning.specs.ExpressionFaults.{has_one};
ghost use Rattle.lus_scopes.specs.Counts.{by_bytes};

use indexmap::IndexMap;
use std::alloc::{AllocError, Global};
use std::marker::Model;

/// Names in the order in which they came, and a table of whether each came more than once. Contracts
/// see the names.
#[derive(Drop)]
pub struct Counted<'a> {
    names: Vec<&'a str>,
    often: IndexMap<&'a str, bool>,
}

impl<'a> Model for Counted<'a> {
    ghost use Rattle.std.specs.Prelude.{◌≡◌, List, map};
    ghost use Rattle.lus_tree.specs.Tree.{Name};
    ghost use Rattle.lus_scopes.specs.Counts.{by_bytes, often_in};

    ghost Value = { List Name };

    ghost view = { λ c. map (λ x. x.now) c.names.items };

    ghost invariant = { λ c. (x : Name) → by_bytes c.often x ≡ often_in x (map (λ y. y.now) c.names.items) };
}

/// Notes one more name.
fn note<'a>(often: &mut IndexMap<&'a str, bool>, name: &'a str) -> Result<(), AllocError>
    ensures noted { OnOk result ((x : Name) → by_bytes often.new x ≡ cond (bytes_eq x name.now)
        (Some (is_some (by_bytes often.old name.now))) (by_bytes often.old x)) }
    ensures kept { OnErr result ((x : Name) → by_bytes often.new x ≡ by_bytes often.old x) }
{
    let again = often.contains_key(name);
    often.insert(name, again)?;
    Ok(())
}

impl<'a> Counted<'a> {
    /// No names.
    pub fn new(alloc: Global) -> Self
        ensures { result ≡ [] }
    {
        Counted {
            names: Vec::new(alloc),
            often: IndexMap::new(alloc),
        }
    }

    /// One more name behind.
    ///
    /// # Errors
    ///
    /// Want of memory; there are then the names that there were.
    pub fn push(&mut self, name: &'a str) -> Result<(), AllocError>
        ensures names { IfOk result (λ _. self.new ≡ self.old ++ name.now ∷ []) }
        ensures kept { OnErr result (self.new ≡ self.old) }
    {
        self.names.push(name)?;
        match note(&mut self.often, name) {
            Ok(_) => Ok(()),
            Err(error) => {
                self.names.pop();
                Err(error)
            }
        }
    }

    /// Whether they have this name.
    pub fn has(&self, name: &str) -> bool
        ensures { result ≡ named_in name.now self.now }
    {
        self.often.contains_key(name)
    }

    /// Whether they have this name exactly once.
    pub fn has_once(&self, name: &str) -> bool
        ensures { result ≡ has_one (filter (bytes_eq name.now) self.now) }
    {
        match self.often.get(name) {
            Some(often) => !*often,
            None => false,
        }
    }
}
