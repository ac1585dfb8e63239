//! Tables of the names of a program.

ghost use Rattle.std.specs.Prelude.{◌≡◌, ◌∷◌, [], None, Some, cond, false, true, IfOk, OnOk, map, option_map};
ghost use Rattle.std.specs.Option.{option_or};
ghost use Rattle.std.specs.Str.{bytes_eq};
ghost use Rattle.indexmap.specs.IndexMap.{get_by_text};
ghost use Rattle.lus_tree.specs.Tree.{Name};
ghost use Rattle.lus_tree.specs.View.{decl_view};
ghost use Rattle.lus_scopes.specs.declared.scope.Extent.TheVariants.{All};
ghost use Rattle.lus_scopes.specs.Scopes.{entry_view, meaning_view, role_view};
ghost use Rattle.lus_types.specs.Names.{Finds, declaration_named, declared_from, found_in, found_view, kind_view, known_among, known_from};

use crate::found::{Found, Kind, note};
use indexmap::IndexMap;
use lus_scopes::names::word;
use lus_scopes::scope::{Entry, Meaning, Role};
use lus_tree::Decl;
use std::alloc::{AllocError, Global};

/// Names with what they are, of each name the first.
pub(crate) type Table = IndexMap<String, Found>;

/// What a name is by a table.
pub(crate) fn found(table: &Table, name: &str) -> Option<Found>
    ensures { option_map found_view result ≡ found_in table.now name.now }
{
    table.get(name).copied()
}

/// The names of a program: those of each declaration by its number, its constants, and of the
/// declarations with parts the number of the first of each name.
#[derive(Drop)]
pub(crate) struct Tables {
    pub(crate) own: Vec<Table>,
    pub(crate) constants: Table,
    pub(crate) declared: IndexMap<String, usize>,
}

/// What a role is as a name.
fn kind_of(role: Role) -> Kind
    ensures { kind_view result ≡ role_view role }
{
    match role {
        Role::Input => Kind::Input,
        Role::Output => Kind::Output,
        Role::Local => Kind::Local,
        Role::Ghost => Kind::Ghost,
    }
}

/// A name that means this.
fn found_as(meaning: &Meaning<'_>, number: usize) -> Found
    ensures { found_view result ≡ record {
      role = (meaning_view meaning.now true).role;
      number = number;
      sort = (meaning_view meaning.now true).sort;
    } }
{
    match meaning {
        Meaning::Stream(role, param) => Found {
            kind: kind_of(*role),
            number,
            sort: Some(param.sort),
        },
        Meaning::Constant(_, sort, _) => Found {
            kind: Kind::Constant,
            number,
            sort: *sort,
        },
    }
}

/// Notes a name that is new, with this number.
fn note_name(
    alloc: Global,
    table: &mut Table,
    entry: &Entry<'_>,
    number: usize,
) -> Result<(), AllocError>
    ensures { OnOk result ((x : Name) → found_in table.new x ≡ option_or (found_in table.old x)
        (known_from number (entry_view All false entry.now ∷ []) x)) }
{
    let name = word(&entry.meaning).text.as_str();
    note(alloc, table, name, found_as(&entry.meaning, number))?;
    Ok(())
}

/// Notes the names that are new, with their numbers.
fn note_names(alloc: Global, table: &mut Table, names: &[Entry<'_>]) -> Result<(), AllocError>
    ensures { OnOk result ((x : Name) → found_in table.new x ≡ option_or (found_in table.old x)
        (known_among (map (entry_view All false) names.now) x)) }
{
    for (number, entry) in names.iter().enumerate() {
        note_name(alloc, table, entry, number)?;
    }
    Ok(())
}

/// A table of these names.
///
/// # Errors
///
/// Want of memory.
pub(crate) fn table_of(alloc: Global, names: &[Entry<'_>]) -> Result<Table, AllocError>
    ensures { IfOk result (λ t. Finds t (map (entry_view All false) names.now)) }
{
    let mut table = IndexMap::new(alloc);
    note_names(alloc, &mut table, names)?;
    Ok(table)
}

/// Notes a declaration with parts.
fn note_declaration(
    alloc: Global,
    declared: &mut IndexMap<String, usize>,
    decl: &Decl,
    number: usize,
) -> Result<(), AllocError>
    ensures { OnOk result ((x : Name) → get_by_text declared.new x ≡ option_or (get_by_text declared.old x)
        (declared_from number (decl_view decl.now ∷ []) x)) }
{
    match decl {
        Decl::Constant(_) => Ok(()),
        Decl::Node(node) => note(alloc, declared, &node.name.text, number),
        Decl::Contract(contract) => note(alloc, declared, &contract.name.text, number),
    }
}

/// Notes the declarations with parts.
fn note_declarations(
    alloc: Global,
    declared: &mut IndexMap<String, usize>,
    decls: &[Decl],
) -> Result<(), AllocError>
    ensures { OnOk result ((x : Name) → get_by_text declared.new x ≡ option_or (get_by_text declared.old x)
        (declaration_named (map decl_view decls.now) x)) }
{
    for (number, decl) in decls.iter().enumerate() {
        note_declaration(alloc, declared, decl, number)?;
    }
    Ok(())
}

/// The numbers of the declarations with parts, of each name the first.
///
/// # Errors
///
/// Want of memory.
pub(crate) fn declared_names(
    alloc: Global,
    decls: &[Decl],
) -> Result<IndexMap<String, usize>, AllocError>
    ensures { IfOk result (λ m. (x : Name) → get_by_text m x ≡ declaration_named (map decl_view decls.now) x) }
{
    let mut declared = IndexMap::new(alloc);
    note_declarations(alloc, &mut declared, decls)?;
    Ok(declared)
}
