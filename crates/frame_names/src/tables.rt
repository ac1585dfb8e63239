//! What is known of each declaration, whatever frame it has.

ghost use Rattle.std.specs.Prelude.{◌≡◌, IfOk, OnOk, map};
ghost use Rattle.std.specs.List.{AllByRecursion};
ghost use Rattle.sys_tables.specs.Views.{linked_view, named_view, table_view, tables_view};
ghost use Rattle.frame_names.specs.Known.{HasNamesOnce, callee_of, known_of, stream_names};
ghost use Rattle.frame_names.specs.Views.{known_view};

use lus_limits::Way;
use name_table::NameTable;
use std::alloc::{AllocError, Global};
use sys_tables::numbers::way_of;
use sys_tables::table::{Linked, Named, Table};

/// A call or an import: the number of its callee among the declarations, at how many slots behind the caller's own
/// cells the callee's frame begins, and how it runs.
#[derive(Clone, Copy)]
pub(crate) struct Callee {
    pub(crate) place: usize,
    pub(crate) frame: usize,
    pub(crate) way: Way,
}

/// What is known of a declaration: the names of its streams in the order of their slots, how many cells its frames have
/// of their own, or `imported` ones where they are an import's, and its calls and imports in the order of their
/// numbers.
#[derive(Drop)]
pub(crate) struct Known {
    pub(crate) names: NameTable,
    pub(crate) own: usize,
    pub(crate) imported: usize,
    pub(crate) calls: Vec<Callee>,
}

/// The names of streams.
fn words_of<'a>(alloc: Global, streams: &[Named<'a>]) -> Result<Vec<&'a str>, AllocError>
    ensures { IfOk result (λ v. map (λ x. x.now) v.items ≡ stream_names (map named_view streams.now)) }
{
    let mut words = Vec::with_capacity(alloc, streams.len())?;
    for stream in streams {
        words.push(stream.param.name.text.as_str())?;
    }
    Ok(words)
}

/// The names of streams that differ, by their numbers.
fn names_of(alloc: Global, streams: &[Named<'_>]) -> Result<NameTable, AllocError>
    requires { HasNamesOnce (map named_view streams.now) }
    ensures { IfOk result (λ t. t ≡ stream_names (map named_view streams.now)) }
{
    let words = words_of(alloc, streams)?;
    match NameTable::distinct(alloc, &words)? {
        Some(table) => Ok(table),
        None => unreachable!(),
    }
}

/// What is known of a call.
fn callee_of(linked: &Linked<'_>) -> Callee
    ensures { result ≡ callee_of (linked_view linked.now) }
{
    Callee {
        place: linked.place,
        frame: linked.slots.frame,
        way: way_of(linked.site.manner),
    }
}

/// What is known of calls.
fn callees_of(alloc: Global, calls: &[Linked<'_>]) -> Result<Vec<Callee>, AllocError>
    ensures { IfOk result (λ v. v.items ≡ map callee_of (map linked_view calls.now)) }
{
    let mut callees = Vec::with_capacity(alloc, calls.len())?;
    for call in calls {
        callees.push(callee_of(call))?;
    }
    Ok(callees)
}

/// What is known of a declaration.
fn known_of(alloc: Global, table: &Table<'_>) -> Result<Known, AllocError>
    requires { HasNamesOnce (table_view table.now).streams }
    ensures { IfOk result (λ k. known_view k ≡ known_of (table_view table.now)) }
{
    Ok(Known {
        names: names_of(alloc, &table.streams)?,
        own: table.layout.own,
        imported: table.layout.imported,
        calls: callees_of(alloc, &table.calls)?,
    })
}

/// What is known of declarations.
pub(crate) fn all_known(alloc: Global, tables: &[Table<'_>]) -> Result<Vec<Known>, AllocError>
    requires { AllByRecursion (λ t. HasNamesOnce t.streams) (tables_view tables.now) }
    ensures { IfOk result (λ v. map known_view v.items ≡ map known_of (tables_view tables.now)) }
{
    let mut all = Vec::with_capacity(alloc, tables.len())?;
    for table in tables {
        all.push(known_of(alloc, table)?)?;
    }
    Ok(all)
}
