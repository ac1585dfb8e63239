//! The declarations of a program, each with its streams by name and its calls.

ghost use Rattle.std.specs.Prelude.{◌≡◌, IfOk, map};
ghost use Rattle.sys_tables.specs.Views.{table_view, tables_view};
ghost use Rattle.evaluation_parts.specs.Views.{all_view, declared_view};
ghost use Rattle.evaluation_turns.specs.Seen.{declared_seen};
ghost use Rattle.evaluation_turns.specs.Sources.{sources_view};

use crate::links::links_of;
use crate::named::Source;
use evaluation_parts::frame::Declared;
use lus_streams::lookup::with_streams;
use lus_streams::streams::streams_of;
use std::alloc::{AllocError, Global};
use sys_tables::table::Table;

/// The streams of a declaration beside what is known of it.
fn with_streams_of<'a, 't>(
    alloc: Global,
    table: &'t Table<'a>,
) -> Result<Source<'a, 't>, AllocError>
    ensures { IfOk result (λ s. table_view s.table.now ≡ table_view table.now) }
{
    let streams = streams_of(alloc, table.owner)?;
    Ok(Source { table, streams })
}

/// The streams of declarations beside what is known of these.
///
/// # Errors
///
/// Want of memory.
pub fn sources_of<'a, 't>(
    alloc: Global,
    tables: &'t [Table<'a>],
) -> Result<Vec<Source<'a, 't>>, AllocError>
    ensures { IfOk result (λ v. sources_view v.items ≡ tables_view tables.now) }
{
    let mut sources = Vec::with_capacity(alloc, tables.len())?;
    for table in tables {
        sources.push(with_streams_of(alloc, table)?)?;
    }
    Ok(sources)
}

/// A declaration with its streams and its calls.
fn declared<'a, 's>(
    alloc: Global,
    source: &'s Source<'a, '_>,
) -> Result<Declared<'a, 's>, AllocError>
    ensures { IfOk result (λ d. declared_view d ≡ declared_seen (table_view source.now.table.now)) }
{
    let links = links_of(alloc, &source.table.calls)?;
    Ok(Declared {
        names: with_streams(source.table.owner, &source.streams),
        links,
    })
}

/// Declarations with their streams and their calls.
///
/// # Errors
///
/// Want of memory.
pub fn all_declared<'a, 's>(
    alloc: Global,
    sources: &'s [Source<'a, '_>],
) -> Result<Vec<Declared<'a, 's>>, AllocError>
    ensures { IfOk result (λ v. all_view v.items ≡ map declared_seen (sources_view sources.now)) }
{
    let mut all = Vec::with_capacity(alloc, sources.len())?;
    for source in sources {
        all.push(declared(alloc, source)?)?;
    }
    Ok(all)
}
