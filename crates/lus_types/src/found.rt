//! What is found of a name.

ghost use Rattle.std.specs.Prelude.{◌≡◌, IsSome, OnOk, Some, None, cond};
ghost use Rattle.std.specs.Option.{option_or};
ghost use Rattle.std.specs.Str.{bytes_eq};
ghost use Rattle.indexmap.specs.IndexMap.{get_by_text};
ghost use Rattle.lus_tree.specs.Tree.{Name};
ghost use Rattle.lus_types.specs.Names.{found_view, named_view};

use indexmap::IndexMap;
use lus_tree::Sort;
use std::alloc::{AllocError, Global};

/// What a name is.
#[derive(Clone, Copy, PartialEq, Eq)]
pub enum Kind {
    Input,
    Output,
    Local,
    Ghost,
    Constant,
}

/// What a name is, its number in the order in which the names are declared, and its type where it
/// has one.
#[derive(Clone, Copy)]
pub(crate) struct Found {
    pub(crate) kind: Kind,
    pub(crate) number: usize,
    pub(crate) sort: Option<Sort>,
}

/// What a name is, its number in the order in which the names are declared, and its type.
#[derive(Clone, Copy)]
pub struct Named {
    pub kind: Kind,
    pub number: usize,
    pub sort: Sort,
}

impl Found {
    /// The same of a name that has a type.
    pub(crate) fn typed(self) -> Named
        requires { IsSome self.sort }
        ensures { named_view result ≡ found_view self }
    {
        Named {
            kind: self.kind,
            number: self.number,
            sort: self.sort.unwrap(),
        }
    }
}

/// Notes the value of a name that has none yet.
///
/// # Errors
///
/// Want of memory.
pub(crate) fn note<V: Copy + Drop>(
    alloc: Global,
    table: &mut IndexMap<String, V>,
    name: &str,
    value: V,
) -> Result<(), AllocError>
    ensures { OnOk result ((x : Name) → get_by_text table.new x ≡ option_or (get_by_text table.old x)
        (cond (bytes_eq x name.now) (Some value) None)) }
{
    if !table.contains_key(name) {
        let owned = String::from_str(alloc, name)?;
        table.insert(owned, value)?;
    }
    Ok(())
}
