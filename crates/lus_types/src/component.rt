//! The faults of one declaration, but for those of circles.

ghost use Rattle.std.specs.Prelude.{◌≡◌, ◌<◌, IfOk};
ghost use Rattle.lus_tree.specs.View.{decl_view, program_view};
ghost use Rattle.lus_meaning.specs.NameFaults.{constant_words, home};
ghost use Rattle.lus_meaning.specs.Scope.{own_names};
ghost use Rattle.lus_types.specs.Declarations.{after, alone_faults, alone_of, inner_faults, marks_twice, own_twice};
ghost use Rattle.lus_types.specs.Names.{Finds, names_of};
ghost use Rattle.lus_scopes.specs.Least.{least_view};
ghost use Rattle.lus_scopes.specs.Notes.{Notes};
ghost use Rattle.lus_scopes.specs.Scopes.{owner_view};

use crate::declared::declared_in;
use crate::entries::entries;
use crate::labels::labels_twice;
use crate::named::with_names;
use crate::repeated::{outer_twice, words_twice};
use crate::rules::contract_and_body;
use crate::setting::Setting;
use crate::state::state;
use crate::tables::{Table, table_of};
use crate::words::{mode_words, own_words};
use indexmap::IndexMap;
use lus_scopes::expression::definition;
use lus_scopes::least::Least;
use lus_scopes::scope::Owner;
use lus_tree::Decl;
use std::alloc::{AllocError, Global};

/// Notes the names of a declaration that stand twice, and those that are constants of the program.
fn names_twice(
    alloc: Global,
    setting: &Setting<'_, '_>,
    least: &mut Least,
    owner: Owner<'_>,
) -> Result<(), AllocError>
    ensures { IfOk result (λ _. Notes (least_view least.old) (least_view least.new)
        (own_twice (constant_words (program_view setting.now.declarations.now)) (owner_view owner.entry))) }
{
    let own = own_words(alloc, owner)?;
    words_twice(alloc, least, &own)?;
    outer_twice(least, setting.seen, setting.words, &own);
    Ok(())
}

/// Notes the modes and the labels of a declaration that stand twice.
#[tactic(auto, using(lus_scopes::proofs::Noting::both_noted))]
fn marks_twice(alloc: Global, least: &mut Least, owner: Owner<'_>) -> Result<(), AllocError>
    ensures { IfOk result (λ _. Notes (least_view least.old) (least_view least.new)
        (marks_twice (owner_view owner.entry))) }
{
    let modes = mode_words(alloc, owner.contract())?;
    words_twice(alloc, least, &modes)?;
    labels_twice(alloc, least, owner)
}

/// Notes the faults of what stands in the contract and in the body of a declaration, and gives a
/// table of its names.
fn inner(
    alloc: Global,
    setting: &Setting<'_, '_>,
    least: &mut Least,
    known: usize,
    owner: Owner<'_>,
) -> Result<Table, AllocError>
    ensures noted { IfOk result (λ _. Notes (least_view least.old) (least_view least.new)
        (inner_faults (home (program_view setting.now.declarations.now) known (owner_view owner.entry)))) }
    ensures names { IfOk result (λ t. Finds t
        (own_names (home (program_view setting.now.declarations.now) known (owner_view owner.entry)))) }
{
    let outer = setting.constants_before(known);
    let declared = declared_in(alloc, owner)?;
    let own = entries(alloc, setting.declarations, outer, &declared)?;
    let home = with_names(setting.declarations, owner, own.layer(), outer);
    contract_and_body(alloc, &home, least)?;
    let names = table_of(alloc, own.entries())?;
    Ok(names)
}

/// Notes the faults of a declaration with parts, and gives a table of its names.
fn component(
    alloc: Global,
    setting: &Setting<'_, '_>,
    least: &mut Least,
    known: usize,
    owner: Owner<'_>,
) -> Result<Table, AllocError>
    ensures noted { IfOk result (λ _. Notes (least_view least.old) (least_view least.new)
        (alone_faults (home (program_view setting.now.declarations.now) known (owner_view owner.entry))
        (constant_words (program_view setting.now.declarations.now)))) }
    ensures names { IfOk result (λ t. Finds t
        (own_names (home (program_view setting.now.declarations.now) known (owner_view owner.entry)))) }
{
    names_twice(alloc, setting, least, owner)?;
    marks_twice(alloc, least, owner)?;
    state(alloc, setting.declarations, least, owner)?;
    let names = inner(alloc, setting, least, known, owner)?;
    Ok(names)
}

/// Notes the faults of a declaration behind so many constants, but for those of circles, and gives a
/// table of its names.
///
/// # Errors
///
/// Want of memory.
pub(crate) fn declaration(
    alloc: Global,
    setting: &Setting<'_, '_>,
    least: &mut Least,
    known: usize,
    decl: &Decl,
) -> Result<Table, AllocError>
    ensures noted { IfOk result (λ _. Notes (least_view least.old) (least_view least.new)
        (alone_of (program_view setting.now.declarations.now) known (decl_view decl.now))) }
    ensures names { IfOk result (λ t. Finds t
        (names_of (program_view setting.now.declarations.now) known (decl_view decl.now))) }
{
    match decl {
        Decl::Constant(constant) => {
            let scope = setting.constant_scope(known);
            definition(&scope, least, constant.sort, &constant.value);
            Ok(IndexMap::new(alloc))
        }
        Decl::Node(node) => component(alloc, setting, least, known, Owner::Node(node)),
        Decl::Contract(contract) => {
            component(alloc, setting, least, known, Owner::Contract(contract))
        }
    }
}

/// How many constants stand before the declaration behind this one.
pub(crate) fn constants_after(known: usize, decl: &Decl) -> usize
    requires { known < 18446744073709551615 }
    ensures { result ≡ after known (decl_view decl.now) }
{
    match decl {
        Decl::Constant(_) => known + 1,
        Decl::Node(_) | Decl::Contract(_) => known,
    }
}
