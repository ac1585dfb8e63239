//! A declaration with its names.

ghost use Rattle.std.specs.Prelude.{◌≡◌, ℕ, false, map};
ghost use Rattle.lus_meaning.specs.Scope.{first_constants, own_names};
ghost use Rattle.lus_scopes.specs.declared.scope.Extent.TheVariants.{First};
ghost use Rattle.lus_scopes.specs.Scopes.{entry_view};
ghost use Rattle.lus_types.specs.Homes.{home_of};

use lus_scopes::declarations::Declarations;
use lus_scopes::layer::Layer;
use lus_scopes::scope::Owner;

/// A declaration with its names, and the program's constants behind them.
#[derive(Clone, Copy)]
pub(crate) struct Home<'a> {
    pub(crate) declarations: &'a Declarations<'a>,
    pub(crate) owner: Owner<'a>,
    pub(crate) own: Layer<'a>,
    pub(crate) outer: Layer<'a>,
    ghost named: { (k : ℕ) → map (entry_view (First k) false) own.entries.now
        ≡ first_constants k (own_names (home_of declarations.now owner outer)) },
}
