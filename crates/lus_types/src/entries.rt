//! What the names of a list mean, each by those before it.

ghost use Rattle.std.specs.Prelude.{◌≡◌, ◌<◌, ◌++◌, IfOk, [], false, true, map};
ghost use Rattle.lus_tree.specs.View.{program_view};
ghost use Rattle.lus_meaning.specs.Scope.{entries_from, entry_for, names_only};
ghost use Rattle.lus_types.specs.Entries.{AreOrdered, behind, behind_all};
ghost use Rattle.lus_scopes.specs.declared.scope.Extent.TheVariants.{All};
ghost use Rattle.lus_scopes.specs.Scopes.{entry_view, layer_view, meaning_view, scope_view};
ghost use Rattle.lus_types.specs.Homes.{declared_view};

use crate::naming::Declared;
use lus_scopes::declarations::Declarations;
use lus_scopes::layer::Layer;
use lus_scopes::meant::constant;
use lus_scopes::names::Names;
use lus_scopes::scope::{Entry, Meaning, Owner, Scope};
use std::alloc::{AllocError, Global};

/// What a name means by the names before it.
fn meant<'a>(scope: &Scope<'_>, declared: Declared<'a>) -> Meaning<'a>
    ensures { meaning_view result true ≡ entry_for (scope_view scope.now) (declared_view declared.entry) }
{
    match declared {
        Declared::Stream(role, param) => Meaning::Stream(role, param),
        Declared::Fixed(definition) => constant(scope, definition),
    }
}

/// The scope in which only names are known, these of a list and those outer ones.
fn names_only<'a>(declarations: &'a Declarations<'a>, own: Layer<'a>, outer: Layer<'a>) -> Scope<'a>
    ensures { scope_view result ≡ names_only (program_view declarations.now)
        (layer_view own.entry false ++ layer_view outer.entry false) }
{
    Scope {
        declarations,
        owner: Owner::Nothing,
        own,
        outer,
        hidden: false,
        modes: None,
        imports: None,
    }
}

/// How many constants stand before the name behind this one.
fn behind(meaning: &Meaning<'_>, order: usize) -> usize
    requires { order < 18446744073709551615 }
    ensures { result ≡ behind meaning.now order }
{
    match meaning {
        Meaning::Stream(_, _) => order,
        Meaning::Constant(_, _, _) => order + 1,
    }
}

/// The names of a list, behind none, each with what it means by those before it and by outer ones.
fn push_entries<'a>(
    own: &mut Names<'a>,
    declarations: &'a Declarations<'a>,
    outer: Layer<'a>,
    names: &[Declared<'a>],
) -> Result<(), AllocError>
    requires { own.old ≡ [] }
    ensures entries { IfOk result (λ _. map (entry_view All false) own.new
        ≡ entries_from (program_view declarations.now) (layer_view outer.entry false) []
        (map declared_view names.now)) }
    ensures order { IfOk result (λ _. AreOrdered 0 own.new) }
{
    let mut order = 0;
    for name in names {
        let meaning = meant(&names_only(&*declarations, own.layer(), outer), *name);
        own.push(Entry { meaning, order })?;
        order = behind(&meaning, order);
    }
    Ok(())
}

/// The names of a list, each with what it means by those before it and by outer ones.
///
/// # Errors
///
/// Want of memory.
pub(crate) fn entries<'a>(
    alloc: Global,
    declarations: &'a Declarations<'a>,
    outer: Layer<'a>,
    names: &[Declared<'a>],
) -> Result<Names<'a>, AllocError>
    ensures entries { IfOk result (λ n. map (entry_view All false) n
        ≡ entries_from (program_view declarations.now) (layer_view outer.entry false) []
        (map declared_view names.now)) }
    ensures order { IfOk result (λ n. AreOrdered 0 n) }
{
    let mut own = Names::new(alloc);
    push_entries(&mut own, declarations, outer, names)?;
    Ok(own)
}
