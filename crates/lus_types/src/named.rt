//! A declaration with the names that were made for it.

ghost use Rattle.std.specs.Prelude.{◌≡◌, false, map};
ghost use Rattle.lus_meaning.specs.Scope.{own_names};
ghost use Rattle.lus_types.specs.Before.{home_view};
ghost use Rattle.lus_types.specs.Entries.{AreOrdered};
ghost use Rattle.lus_scopes.specs.Scopes.{entry_view};
ghost use Rattle.lus_types.specs.Homes.{home_of};

use crate::home::Home;
use lus_scopes::declarations::Declarations;
use lus_scopes::layer::Layer;
use lus_scopes::scope::{Extent, Owner};

/// A declaration with the names that were made for it.
#[tactic(auto, using(crate::proofs::Ordered::all_first_known))]
pub(crate) fn with_names<'a>(
    declarations: &'a Declarations<'a>,
    owner: Owner<'a>,
    own: Layer<'a>,
    outer: Layer<'a>,
) -> Home<'a>
    requires entries { map (entry_view Extent.All false) own.entries.now
        ≡ own_names (home_of declarations.now owner outer) }
    requires order { AreOrdered 0 own.entries.now }
    ensures { home_view result ≡ home_of declarations.now owner.entry outer.entry }
{
    Home {
        declarations,
        owner,
        own,
        outer,
    }
}
