//! What gives names, memories and starts of a frame their values.

ghost use Rattle.std.specs.Prelude.{◌≡◌, ◌++◌, IfOk, OnOk, map, option_map};
ghost use Rattle.lus_streams.specs.Clocks.{clock_seen};
ghost use Rattle.slot_sources.specs.Source.{source_view};
ghost use Rattle.sys_conditions.specs.Views.{memory_view, right_view, start_view};
ghost use Rattle.sys_texts.specs.Views.{sight_view};
ghost use Rattle.frame_sources.specs.Sourced.{contract_sources, memory_source, own_source, start_source};
ghost use Rattle.frame_sources.specs.Views.{all_asked_view, sources_view};

use crate::frame::resolved;
use crate::modes::Asked;
use crate::rights::right_of;
use crate::switches::switch_of;
use lus_streams::clock::Clock;
use slot_sources::Source;
use std::alloc::{AllocError, Global};
use sys_conditions::occurrences::{Memory, Right, Start};
use sys_texts::sight::Sight;

/// What gives a name on that clock its value, by its equation.
pub(crate) fn own_source(
    alloc: Global,
    sight: &Sight<'_>,
    modes: &[Asked<'_>],
    clock: Clock<'_>,
    right: Option<Right<'_>>,
) -> Result<Source, AllocError>
    ensures { IfOk result (λ e. source_view e ≡ own_source (sight_view sight.now) (all_asked_view modes.now)
        (clock_seen clock.entry) (option_map right_view right.entry)) }
{
    let switch = switch_of(sight, clock);
    match right {
        Some(right) => Ok(Source::Given(switch, right_of(alloc, sight, modes, right)?)),
        None => Ok(Source::Listed(switch)),
    }
}

/// What gives the memory of a `pre` its value.
fn memory_source(
    alloc: Global,
    sight: &Sight<'_>,
    modes: &[Asked<'_>],
    memory: Memory<'_>,
) -> Result<Source, AllocError>
    ensures { IfOk result (λ e. source_view e ≡ memory_source (sight_view sight.now) (all_asked_view modes.now)
        (memory_view memory.entry)) }
{
    let operand = resolved(alloc, sight, modes, memory.operand)?;
    Ok(Source::Remembered(switch_of(sight, memory.clock), operand))
}

/// The sources, and behind them those of memories.
pub(crate) fn push_memories(
    alloc: Global,
    sources: &mut Vec<Source>,
    sight: &Sight<'_>,
    modes: &[Asked<'_>],
    memories: &[Memory<'_>],
) -> Result<(), AllocError>
    ensures { OnOk result (sources_view sources.new.items ≡ sources_view sources.old.items
        ++ map (memory_source (sight_view sight.now) (all_asked_view modes.now)) (map memory_view memories.now)) }
{
    for memory in memories {
        let source = memory_source(alloc, sight, modes, *memory)?;
        sources.push(source)?;
    }
    Ok(())
}

/// What gives the start of a `->` its value.
fn start_source(sight: &Sight<'_>, start: Start<'_>) -> Source
    ensures { source_view result ≡ start_source (sight_view sight.now) (start_view start.entry) }
{
    Source::Starting(switch_of(sight, start.clock))
}

/// The sources, and behind them those of starts.
pub(crate) fn push_starts(
    sources: &mut Vec<Source>,
    sight: &Sight<'_>,
    starts: &[Start<'_>],
) -> Result<(), AllocError>
    ensures { OnOk result (sources_view sources.new.items ≡ sources_view sources.old.items
        ++ map (start_source (sight_view sight.now)) (map start_view starts.now)) }
{
    for start in starts {
        sources.push(start_source(sight, *start))?;
    }
    Ok(())
}

/// The sources, and behind them that of what says whether the assumptions were true so far, where the frame keeps it.
pub(crate) fn push_contract(sources: &mut Vec<Source>, kept: bool) -> Result<(), AllocError>
    ensures { OnOk result (sources_view sources.new.items ≡ sources_view sources.old.items ++ contract_sources kept) }
{
    if kept {
        sources.push(Source::Unread)?;
    }
    Ok(())
}
