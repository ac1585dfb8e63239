//! What gives the slots of a frame's own their values.

ghost use Rattle.std.specs.Prelude.{◌≡◌, ◌++◌, IfOk, OnOk, drop, map};
ghost use Rattle.slot_sources.specs.Source.{source_view};
ghost use Rattle.sys_tables.specs.Views.{named_view, table_view};
ghost use Rattle.sys_texts.specs.Views.{sight_view};
ghost use Rattle.frame_sources.specs.OwnSources.{own_sources, stream_source, stream_sources};
ghost use Rattle.frame_sources.specs.Views.{all_asked_view, sources_view};

use crate::kept::{own_source, push_contract, push_memories, push_starts};
use crate::modes::Asked;
use lus_streams::clock::declared;
use slot_sources::Source;
use std::alloc::{AllocError, Global};
use sys_tables::table::{Named, Table};
use sys_texts::sight::Sight;

/// What gives a stream its value, by its equation.
fn stream_source(
    alloc: Global,
    sight: &Sight<'_>,
    modes: &[Asked<'_>],
    stream: &Named<'_>,
) -> Result<Source, AllocError>
    ensures { IfOk result (λ e. source_view e ≡ stream_source (sight_view sight.now) (all_asked_view modes.now)
        (named_view stream.now)) }
{
    own_source(
        alloc,
        sight,
        modes,
        declared(&stream.param.clock),
        stream.right,
    )
}

/// The sources, and behind them those of streams by their equations.
fn push_others(
    alloc: Global,
    sources: &mut Vec<Source>,
    sight: &Sight<'_>,
    modes: &[Asked<'_>],
    streams: &[Named<'_>],
) -> Result<(), AllocError>
    ensures { OnOk result (sources_view sources.new.items ≡ sources_view sources.old.items
        ++ map (stream_source (sight_view sight.now) (all_asked_view modes.now)) (map named_view streams.now)) }
{
    for stream in streams {
        let source = stream_source(alloc, sight, modes, stream)?;
        sources.push(source)?;
    }
    Ok(())
}

/// The sources, and behind them those of the streams from that place on.
fn push_from(
    alloc: Global,
    sources: &mut Vec<Source>,
    sight: &Sight<'_>,
    modes: &[Asked<'_>],
    streams: &[Named<'_>],
    count: usize,
) -> Result<(), AllocError>
    ensures { OnOk result (sources_view sources.new.items ≡ sources_view sources.old.items
        ++ map (stream_source (sight_view sight.now) (all_asked_view modes.now))
        (drop count (map named_view streams.now))) }
{
    match streams.get(count..) {
        Some(rest) => push_others(alloc, sources, sight, modes, rest),
        None => Ok(()),
    }
}

/// The sources, and behind them those of streams, of which the caller gives the first ones.
fn push_streams(
    alloc: Global,
    sources: &mut Vec<Source>,
    sight: &Sight<'_>,
    modes: &[Asked<'_>],
    streams: &[Named<'_>],
    from_caller: Vec<Source>,
) -> Result<(), AllocError>
    ensures { OnOk result (sources_view sources.new.items ≡ sources_view sources.old.items
        ++ stream_sources (sight_view sight.now) (all_asked_view modes.now) (map named_view streams.now)
        (sources_view from_caller.items)) }
{
    let mut from_caller = from_caller;
    let count = from_caller.len();
    sources.append(&mut from_caller)?;
    push_from(alloc, sources, sight, modes, streams, count)
}

/// The sources, and behind them those of a frame's own slots.
pub(crate) fn push_own(
    alloc: Global,
    sources: &mut Vec<Source>,
    table: &Table<'_>,
    sight: &Sight<'_>,
    modes: &[Asked<'_>],
    kept: bool,
    active: Source,
    from_caller: Vec<Source>,
) -> Result<(), AllocError>
    ensures { OnOk result (sources_view sources.new.items ≡ sources_view sources.old.items
        ++ own_sources (table_view table.now) (sight_view sight.now) (all_asked_view modes.now) kept
        (source_view active) (sources_view from_caller.items)) }
{
    sources.push(active)?;
    push_streams(alloc, sources, sight, modes, &table.streams, from_caller)?;
    push_memories(alloc, sources, sight, modes, &table.memories)?;
    push_starts(sources, sight, &table.starts)?;
    push_contract(sources, kept)
}
