//! Names with what they mean, as they are made.

ghost use Rattle.std.specs.Prelude.{◌≡◌, ◌++◌, ◌∷◌, [], false, IfOk, OnErr};
ghost use Rattle.lus_tree.specs.View.{word_view};
ghost use Rattle.lus_scopes.specs.Meanings.{meaning_view};

use crate::firsts::note;
use crate::layer::Layer;
use crate::scope::{Entry, Extent, Meaning};
use indexmap::IndexMap;
use lus_tree::PlacedName;
use std::alloc::{AllocError, Global};
use std::marker::Model;

/// Names in the order in which they are declared, and a table of the first of each name. Contracts
/// see the names in this order.
#[derive(Drop)]
pub struct Names<'a> {
    entries: Vec<Entry<'a>>,
    table: IndexMap<&'a str, Entry<'a>>,
}

impl<'a> Model for Names<'a> {
    ghost use Rattle.std.specs.Prelude.{List};
    ghost use Rattle.std.specs.Coded.{codes};
    ghost use Rattle.lus_tree.specs.contracts.expression.Expr as e;
    ghost use Rattle.lus_tree.specs.contracts.expression.Form as f;
    ghost use Rattle.lus_scopes.specs.declared.scope.Entry.{Entry};
    ghost use Rattle.lus_scopes.specs.Meanings.{IsTable};

    ghost Value = { List Entry };

    ghost coded = { Prim.hlevel (codes, e.the_row.coded, f.the_row.coded) };

    ghost view = { λ n. n.entries.items };

    ghost invariant = { λ n. IsTable n.entries.items n.table };
}

/// The word of a name.
pub fn word<'a>(meaning: &Meaning<'a>) -> &'a PlacedName
    ensures { word_view result.now ≡ (meaning_view meaning.now false).word }
{
    match meaning {
        Meaning::Stream(_, param) => &param.name,
        Meaning::Constant(definition, _, _) => &definition.name,
    }
}

impl<'a> Names<'a> {
    /// No names.
    pub fn new(alloc: Global) -> Self
        ensures { result ≡ [] }
    {
        Names {
            entries: Vec::new(alloc),
            table: IndexMap::new(alloc),
        }
    }

    /// One more name behind.
    ///
    /// # Errors
    ///
    /// Want of memory; there are then the names that there were.
    pub fn push(&mut self, entry: Entry<'a>) -> Result<(), AllocError>
        ensures names { IfOk result (λ _. self.new ≡ self.old ++ entry.entry ∷ []) }
        ensures kept { OnErr result (self.new ≡ self.old) }
    {
        let name = word(&entry.meaning).text.as_str();
        self.entries.push(entry)?;
        match note(&mut self.table, name, entry) {
            Ok(_) => Ok(()),
            Err(error) => {
                self.entries.pop();
                Err(error)
            }
        }
    }

    /// The names, in the order in which they were added.
    pub fn entries(&self) -> &[Entry<'a>]
        ensures { result.now ≡ self.now }
    {
        &self.entries
    }

    /// The list of a scope in which all of them may be used.
    pub fn layer(&self) -> Layer<'_>
        ensures entries { result.entries.now ≡ self.now }
        ensures extent { result.extent ≡ Extent.All }
    {
        Layer {
            entries: &self.entries,
            table: &self.table,
            extent: Extent::All,
        }
    }
}
