//! What a constant means by the names before it.

ghost use Rattle.std.specs.Prelude.{◌≡◌, true};
ghost use Rattle.lus_tree.specs.View.{definition_view};
ghost use Rattle.lus_meaning.specs.Scope.{a_fixed, entry_for, given_or_found};
ghost use Rattle.lus_scopes.specs.Scopes.{meaning_view, scope_view};

use crate::least::Least;
use crate::part::{Manner, part};
use crate::scope::{Meaning, Scope};
use lus_tree::{Definition, Sort};

/// A type that is written, or else the one that was found.
fn given_or_found(given: Option<Sort>, found: Option<Sort>) -> Option<Sort>
    ensures { result ≡ given_or_found given found }
{
    match given {
        Some(sort) => Some(sort),
        None => found,
    }
}

/// A constant, with its type and its value by the names before it.
pub fn constant<'a>(scope: &Scope<'_>, definition: &'a Definition) -> Meaning<'a>
    ensures { meaning_view result true ≡ entry_for (scope_view scope.now) (a_fixed (definition_view definition.now)) }
{
    let manner = Manner {
        whole_side: false,
        constant: true,
    };
    let mut unused = Least::new();
    let found = part(scope, &mut unused, manner, &definition.value);
    let sort = given_or_found(definition.sort, found.sort);
    Meaning::Constant(definition, sort, found.worth.value)
}
