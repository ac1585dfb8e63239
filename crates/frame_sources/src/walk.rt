//! The walk over the frames of a declaration: its own, and for each call that of the callee, in the order of their
//! slots.

ghost use Rattle.std.specs.Prelude.{◌≡◌, ◌++◌, OnOk, map, option_map, slice_get};
ghost use Rattle.std.specs.List.{AllByRecursion};
ghost use Rattle.slot_sources.specs.Source.{source_view};
ghost use Rattle.sys_frames.specs.Walked.{CallsHaveRoom, HasRoomWithin, IfThere, OfCall};
ghost use Rattle.sys_tables.specs.Numbers.{CallHasRoom, frame_base};
ghost use Rattle.sys_tables.specs.Views.{linked_view, table_view, tables_view};
ghost use Rattle.sys_texts.specs.Views.{call_view, sight_view};
ghost use Rattle.frame_sources.specs.Views.{all_asked_view, sources_view};
ghost use Rattle.frame_sources.specs.Walked.{call_sources, call_sources_or_none, calls_sources, sources_below, sources_or_none, sources_seen, sources_within};

use crate::held::{beat_source, from_call, push_held};
use crate::imports::{Tables, modes_seen, table_at};
use crate::modes::Asked;
use crate::own::push_own;
use lus_limits::Way;
use slot_sources::Source;
use std::alloc::AllocError;
use sys_tables::numbers::{behind_own, frame_base, keeps_so_far, way_of};
use sys_tables::sight::sight;
use sys_tables::table::{Linked, Table};
use sys_texts::sight::{Call, Sight};

/// The call that a frame's sight has at that place.
#[tactic(auto, using(sys_texts::proofs::Gotten::seen_at))]
fn call_at<'a, 's>(sight: &'s Sight<'a>, place: usize) -> Option<&'s Call<'a>>
    ensures { option_map (λ c. call_view c.now) result ≡ slice_get (sight_view sight.now).calls place }
{
    sight.calls.get(place)
}

/// The sources, and behind them those of a frame that is seen so, where these modes are known, and of those of its
/// calls, with calls nested no deeper than `depth`.
#[cycle(walk)]
pub(crate) fn visit_seen<'a>(
    tables: Tables<'a, '_>,
    depth: usize,
    sources: &mut Vec<Source>,
    table: &Table<'a>,
    sight: &Sight<'_>,
    modes: &[Asked<'_>],
    way: Way,
    base: u32,
    active: Source,
    from_caller: Vec<Source>,
) -> Result<(), AllocError>
    requires room { HasRoomWithin depth (tables_view tables.all.now) (table_view table.now) way base }
    ensures { OnOk result (sources_view sources.new.items ≡ sources_view sources.old.items
        ++ sources_seen depth (tables_view tables.entry.all.now) tables.entry.missing (table_view table.now)
        (sight_view sight.now) (all_asked_view modes.now) way base (source_view active)
        (sources_view from_caller.items)) }
{
    let kept = keeps_so_far(table, way);
    push_own(
        tables.alloc,
        sources,
        table,
        sight,
        modes,
        kept,
        active,
        from_caller,
    )?;
    let from = behind_own(table, way, base);
    visit_below(tables, depth, sources, sight, modes, from, &table.calls)
}

/// The sources, and behind them those of the frames of calls that stand from there on, with others nested in them no
/// deeper than `depth`.
#[cycle(walk)]
fn visit_below<'a>(
    tables: Tables<'a, '_>,
    depth: usize,
    sources: &mut Vec<Source>,
    sight: &Sight<'_>,
    modes: &[Asked<'_>],
    from: u32,
    calls: &[Linked<'a>],
) -> Result<(), AllocError>
    requires room { AllByRecursion (CallHasRoom from) (map linked_view calls.now) }
    requires below { CallsHaveRoom depth (tables_view tables.all.now) from (map linked_view calls.now) }
    ensures { OnOk result (sources_view sources.new.items ≡ sources_view sources.old.items
        ++ sources_below depth (tables_view tables.entry.all.now) tables.entry.missing (sight_view sight.now)
        (all_asked_view modes.now) from (map linked_view calls.now)) }
{
    if depth == 0 {
        return Ok(());
    }
    visit_calls(tables, depth - 1, sources, sight, modes, from, calls)
}

/// The sources, and behind them those of the frames of calls.
#[cycle(walk)]
fn visit_calls<'a>(
    tables: Tables<'a, '_>,
    depth: usize,
    sources: &mut Vec<Source>,
    sight: &Sight<'_>,
    modes: &[Asked<'_>],
    from: u32,
    calls: &[Linked<'a>],
) -> Result<(), AllocError>
    requires room { AllByRecursion (CallHasRoom from) (map linked_view calls.now) }
    requires below { AllByRecursion (OfCall (HasRoomWithin depth (tables_view tables.all.now))
        (tables_view tables.all.now) from) (map linked_view calls.now) }
    ensures { OnOk result (sources_view sources.new.items ≡ sources_view sources.old.items
        ++ calls_sources (sources_within depth (tables_view tables.entry.all.now) tables.entry.missing)
        (tables_view tables.entry.all.now) (sight_view sight.now) (all_asked_view modes.now) from 0
        (map linked_view calls.now)) }
{
    for (place, call) in calls.iter().enumerate() {
        visit_placed(tables, depth, sources, sight, modes, from, call, place)?;
    }
    Ok(())
}

/// The sources, and behind them those of the frame of a call that the caller's sight has at that place.
#[cycle(walk)]
fn visit_placed<'a>(
    tables: Tables<'a, '_>,
    depth: usize,
    sources: &mut Vec<Source>,
    sight: &Sight<'_>,
    modes: &[Asked<'_>],
    from: u32,
    call: &Linked<'a>,
    place: usize,
) -> Result<(), AllocError>
    requires room { CallHasRoom from (linked_view call.now) }
    requires below { OfCall (HasRoomWithin depth (tables_view tables.all.now)) (tables_view tables.all.now) from
        (linked_view call.now) }
    ensures { OnOk result (sources_view sources.new.items ≡ sources_view sources.old.items
        ++ call_sources_or_none (sources_within depth (tables_view tables.entry.all.now) tables.entry.missing)
        (tables_view tables.entry.all.now) (sight_view sight.now) (all_asked_view modes.now) from
        (linked_view call.now) (slice_get (sight_view sight.now).calls place)) }
{
    match call_at(sight, place) {
        Some(seen) => visit_call(tables, depth, sources, sight, modes, from, call, seen),
        None => Ok(()),
    }
}

/// The sources, and behind them those of what is held of a call, and of its frame.
#[cycle(walk)]
fn visit_call<'a>(
    tables: Tables<'a, '_>,
    depth: usize,
    sources: &mut Vec<Source>,
    sight: &Sight<'_>,
    modes: &[Asked<'_>],
    from: u32,
    call: &Linked<'a>,
    seen: &Call<'_>,
) -> Result<(), AllocError>
    requires room { CallHasRoom from (linked_view call.now) }
    requires below { OfCall (HasRoomWithin depth (tables_view tables.all.now)) (tables_view tables.all.now) from
        (linked_view call.now) }
    ensures { OnOk result (sources_view sources.new.items ≡ sources_view sources.old.items
        ++ call_sources (sources_within depth (tables_view tables.entry.all.now) tables.entry.missing)
        (tables_view tables.entry.all.now) (sight_view sight.now) (all_asked_view modes.now) from
        (linked_view call.now) (call_view seen.now)) }
{
    let alloc = tables.alloc;
    push_held(sources, &call.defaults, seen, call.site.manner)?;
    let active = beat_source(alloc, sight, modes, call.site.clock, call.site.manner)?;
    let given = from_call(alloc, sight, modes, seen.beat, call.site)?;
    let base = frame_base(from, call);
    let way = way_of(call.site.manner);
    visit_or_none(tables, depth, sources, call.place, way, base, active, given)
}

/// The sources, and behind them those of a frame of the declaration of that place; nothing where there is none.
#[cycle(walk)]
pub(crate) fn visit_or_none<'a>(
    tables: Tables<'a, '_>,
    depth: usize,
    sources: &mut Vec<Source>,
    place: usize,
    way: Way,
    base: u32,
    active: Source,
    from_caller: Vec<Source>,
) -> Result<(), AllocError>
    requires below { IfThere (HasRoomWithin depth (tables_view tables.all.now))
        (slice_get (tables_view tables.all.now) place) way base }
    ensures { OnOk result (sources_view sources.new.items ≡ sources_view sources.old.items
        ++ sources_or_none (sources_within depth (tables_view tables.entry.all.now) tables.entry.missing)
        (slice_get (tables_view tables.entry.all.now) place) way base (source_view active)
        (sources_view from_caller.items)) }
{
    match table_at(tables.all, place) {
        Some(table) => visit_frame(
            tables,
            depth,
            sources,
            table,
            way,
            base,
            active,
            from_caller,
        ),
        None => Ok(()),
    }
}

/// The sources, and behind them those of a frame of a declaration that runs so and has its slots from there on, and of
/// those of its calls, with calls nested no deeper than `depth`.
#[cycle(walk)]
fn visit_frame<'a>(
    tables: Tables<'a, '_>,
    depth: usize,
    sources: &mut Vec<Source>,
    table: &Table<'a>,
    way: Way,
    base: u32,
    active: Source,
    from_caller: Vec<Source>,
) -> Result<(), AllocError>
    requires room { HasRoomWithin depth (tables_view tables.all.now) (table_view table.now) way base }
    ensures { OnOk result (sources_view sources.new.items ≡ sources_view sources.old.items
        ++ sources_within depth (tables_view tables.entry.all.now) tables.entry.missing (table_view table.now) way base
        (source_view active) (sources_view from_caller.items)) }
{
    let sight = sight(tables.alloc, table, way, base, tables.missing)?;
    let modes = modes_seen(tables, depth, table, &sight, behind_own(table, way, base))?;
    visit_seen(
        tables,
        depth,
        sources,
        table,
        &sight,
        &modes,
        way,
        base,
        active,
        from_caller,
    )
}
