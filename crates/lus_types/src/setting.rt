//! What all declarations of a program share.

ghost use Rattle.std.specs.Prelude.{◌≡◌, ℕ, [], false, map};
ghost use Rattle.lus_tree.specs.View.{program_view};
ghost use Rattle.lus_meaning.specs.Scope.{constants_declared, entries_from, outer_names};
ghost use Rattle.lus_meaning.specs.NameFaults.{constant_words, outer_scope};
ghost use Rattle.lus_scopes.specs.declared.scope.Extent.TheVariants.{First};
ghost use Rattle.lus_types.specs.Entries.{AreOrdered};
ghost use Rattle.lus_types.specs.Repeated.{HasSeen};
ghost use Rattle.lus_scopes.specs.Scopes.{entry_view, layer_view, scope_view};
ghost use Rattle.lus_types.specs.Words.{words_view};

use lus_scopes::declarations::Declarations;
use lus_scopes::layer::Layer;
use lus_scopes::scope::{Extent, Owner, Scope};
use lus_tree::PlacedName;
use name_table::NameTable;

/// A program, its constants with what they mean, their words, and a table of these.
#[derive(Clone, Copy)]
pub(crate) struct Setting<'a, 's> {
    pub(crate) declarations: &'a Declarations<'a>,
    pub(crate) constants: Layer<'a>,
    /// No names.
    pub(crate) nothing: Layer<'a>,
    pub(crate) words: &'a [&'a PlacedName],
    pub(crate) seen: &'s NameTable,
    ghost named: { (k : ℕ) → map (entry_view (First k) false) constants.entries.now
        ≡ outer_names (program_view declarations.now) k },
    ghost none: { layer_view nothing false ≡ [] },
    ghost listed: { words_view words.now ≡ constant_words (program_view declarations.now) },
    ghost known: { HasSeen seen.now (words_view words.now) },
}

impl<'a, 's> Setting<'a, 's> {
    /// A program with what was made of its constants.
    #[tactic(auto, using(crate::proofs::Ordered::all_first_known))]
    pub(crate) fn new(
        declarations: &'a Declarations<'a>,
        constants: Layer<'a>,
        nothing: Layer<'a>,
        words: &'a [&'a PlacedName],
        seen: &'s NameTable,
    ) -> Self
        requires entries { map (entry_view Extent.All false) constants.entries.now
            ≡ entries_from (program_view declarations.now) [] [] (constants_declared (program_view declarations.now)) }
        requires order { AreOrdered 0 constants.entries.now }
        requires nothing { layer_view nothing false ≡ [] }
        requires words { words_view words.now ≡ constant_words (program_view declarations.now) }
        requires seen { HasSeen seen.now (words_view words.now) }
        ensures { program_view result.declarations.now ≡ program_view declarations.now }
    {
        Setting {
            declarations,
            constants,
            nothing,
            words,
            seen,
        }
    }

    /// The constants of the program as they are known behind so many.
    pub(crate) fn constants_before(&self, count: usize) -> Layer<'a>
        ensures { layer_view result false ≡ outer_names (program_view self.now.declarations.now) count }
    {
        self.constants.within(Extent::First(count))
    }

    /// The scope of a constant of the program behind so many.
    pub(crate) fn constant_scope(&self, count: usize) -> Scope<'a>
        ensures { scope_view result ≡ outer_scope (program_view self.now.declarations.now) count }
    {
        Scope {
            declarations: self.declarations,
            owner: Owner::Nothing,
            own: self.nothing,
            outer: self.constants_before(count),
            hidden: false,
            modes: None,
            imports: None,
        }
    }
}
