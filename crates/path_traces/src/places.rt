//! The places that printed text has for the variables of a system.

ghost use Rattle.std.specs.Prelude.{◌≡◌, ◌++◌, ◌∷◌, ◌+◌, ◌<◌, ◌^◌, [], Some, Contains, IfOk, OnOk, map, flat_map, option_map};
ghost use Rattle.lus_tree.specs.View.{param_view, program_view};
ghost use Rattle.lus_limits.specs.Calls.{call_view};
ghost use Rattle.lus_limits.specs.Summaries.{sofar_count};
ghost use Rattle.lus_limits.specs.declared.calls.Way.TheVariants.{Plain};
ghost use Rattle.lus_meaning.specs.ClockFaults.{components};
ghost use Rattle.lus_meaning.specs.Program.{instance_of};
ghost use Rattle.lus_meaning.specs.Refusals.{IsChecked};
ghost use Rattle.lus_meaning.specs.Slots.{slots};
ghost use Rattle.lus_streams.specs.Owner.{owner_view};
ghost use Rattle.lus_streams.specs.Streams.{params_view};
ghost use Rattle.path_traces.specs.Places.{first_places, held_places, name_place, named_places, no_places, output_places, own_places, place_seen, places_within};
ghost use Rattle.path_traces.specs.Plans.{plan_view};
ghost use Rattle.path_traces.specs.Printed.{place_view, printed_place, printed_slot};

use crate::plan::{Plan, plan_of};
use crate::tables::{Tables, plan_named, tables_of};
use crate::walk::way_to;
use lus_limits::{Call, Way};
use lus_meaning::Spot;
use lus_streams::owner::Owner;
use lus_tree::{Param, Program};
use std::alloc::{AllocError, Global};

/// The numbers of the calls on the way to a frame, and a name or a first value in it.
#[derive(Drop)]
pub struct Place {
    pub path: Vec<u32>,
    pub what: Spot,
}

/// The place of a name.
fn name_place(alloc: Global, path: &[u32], param: &Param) -> Result<Place, AllocError>
    ensures { IfOk result (λ p. place_seen (Some p) ≡ name_place path.now (param_view param.now)) }
{
    Ok(Place {
        path: path.to_vec(alloc)?,
        what: Spot::Name(param.name.text.clone()?),
    })
}

/// The place of a first value.
fn first_place(alloc: Global, path: &[u32], number: u32) -> Result<Place, AllocError>
    ensures { IfOk result (λ p. place_seen (Some p) ∷ [] ≡ first_places path.now number 1) }
{
    Ok(Place {
        path: path.to_vec(alloc)?,
        what: Spot::First(number),
    })
}

/// The places, and behind them those of names.
fn push_names(
    alloc: Global,
    places: &mut Vec<Option<Place>>,
    path: &[u32],
    names: &[&Param],
) -> Result<(), AllocError>
    ensures { OnOk result (map place_seen places.new.items ≡ map place_seen places.old.items
        ++ map (name_place path.now) (params_view names.now)) }
{
    for param in names {
        places.push(Some(name_place(alloc, path, *param)?))?;
    }
    Ok(())
}

/// The places, and behind them those of so many first values.
fn push_firsts(
    alloc: Global,
    places: &mut Vec<Option<Place>>,
    path: &[u32],
    count: u32,
) -> Result<(), AllocError>
    requires { count + 1 < 2 ^ 32 }
    ensures { OnOk result (map place_seen places.new.items ≡ map place_seen places.old.items
        ++ first_places path.now 1 count) }
{
    for index in 0..count {
        places.push(Some(first_place(alloc, path, index + 1)?))?;
    }
    Ok(())
}

/// The places, and behind them none for so many variables.
fn push_none(places: &mut Vec<Option<Place>>, count: usize) -> Result<(), AllocError>
    ensures { OnOk result (map place_seen places.new.items ≡ map place_seen places.old.items ++ no_places count) }
{
    for index in 0..count {
        prove!(index < count);
        places.push(None)?;
    }
    Ok(())
}

/// How many variables of a frame that runs so keep whether the assumptions were true so far.
fn sofar_count(way: Way, contract: bool) -> usize
    ensures { result ≡ sofar_count way contract }
{
    match way {
        Way::Import => 0,
        Way::Plain | Way::Condition => usize::from(contract),
    }
}

/// The places, and behind them those of the first values of a frame.
fn push_memories(
    alloc: Global,
    places: &mut Vec<Option<Place>>,
    path: &[u32],
    memories: usize,
) -> Result<(), AllocError>
    ensures { OnOk result (map place_seen places.new.items ≡ map place_seen places.old.items
        ++ first_places path.now 1 memories) }
{
    let Ok(count) = u32::try_from(memories) else {
        return Err(AllocError);
    };
    if count == u32::MAX {
        return Err(AllocError);
    }
    push_firsts(alloc, places, path, count)
}

/// The places, and behind them those of a frame itself, which runs so.
fn push_own(
    alloc: Global,
    places: &mut Vec<Option<Place>>,
    way: Way,
    path: &[u32],
    plan: &Plan<'_>,
) -> Result<(), AllocError>
    ensures { OnOk result (map place_seen places.new.items ≡ map place_seen places.old.items
        ++ own_places way path.now (plan_view plan.now)) }
{
    push_none(places, 1)?;
    push_names(alloc, places, path, &plan.names.params)?;
    push_memories(alloc, places, path, plan.memories)?;
    push_none(places, plan.starts)?;
    push_none(places, sofar_count(way, plan.contract))
}

/// The places, and behind them those of as many outputs of a call as there are defaults.
fn push_outputs(
    alloc: Global,
    places: &mut Vec<Option<Place>>,
    path: &[u32],
    outputs: &[Param],
    defaults: usize,
) -> Result<(), AllocError>
    ensures { OnOk result (map place_seen places.new.items ≡ map place_seen places.old.items
        ++ output_places path.now (map param_view outputs.now) defaults) }
{
    for index in 0..outputs.len().min(defaults) {
        places.push(Some(name_place(alloc, path, &outputs[index])?))?;
    }
    Ok(())
}

/// The places, and behind them those of what the caller holds of a call.
fn push_held(
    alloc: Global,
    places: &mut Vec<Option<Place>>,
    path: &[u32],
    call: &Call<'_>,
    outputs: &[Param],
) -> Result<(), AllocError>
    ensures { OnOk result (map place_seen places.new.items ≡ map place_seen places.old.items
        ++ held_places (call_view call.now).way path.now (map param_view outputs.now) (call_view call.now).defaults) }
{
    match call.way {
        Way::Plain | Way::Import => Ok(()),
        Way::Condition => push_outputs(alloc, places, path, outputs, call.defaults),
    }
}

/// The places, and behind them those of a frame, which runs so, and of those of its calls, with calls nested no deeper
/// than `depth`.
#[cycle(places)]
fn push_frame(
    alloc: Global,
    tables: &Tables<'_>,
    depth: usize,
    places: &mut Vec<Option<Place>>,
    way: Way,
    path: &[u32],
    plan: &Plan<'_>,
) -> Result<(), AllocError>
    ensures { OnOk result (map place_seen places.new.items ≡ map place_seen places.old.items
        ++ places_within depth (map plan_view tables.now.plans.items) way path.now (plan_view plan.now)) }
{
    push_own(alloc, places, way, path, plan)?;
    if depth == 0 {
        return Ok(());
    }
    push_calls(alloc, tables, depth - 1, places, path, &plan.calls)
}

/// The places, and behind them those of what calls take, in the order of their numbers.
#[cycle(places)]
fn push_calls(
    alloc: Global,
    tables: &Tables<'_>,
    depth: usize,
    places: &mut Vec<Option<Place>>,
    path: &[u32],
    calls: &[Call<'_>],
) -> Result<(), AllocError>
    ensures { OnOk result (map place_seen places.new.items ≡ map place_seen places.old.items
        ++ flat_map (named_places (places_within depth (map plan_view tables.now.plans.items))
        (map plan_view tables.now.plans.items) path.now) (map call_view calls.now)) }
{
    for call in calls {
        push_call(alloc, tables, depth, places, path, call)?;
    }
    Ok(())
}

/// The places, and behind them those of what a call takes: what the caller holds of it, and the callee's frame.
#[cycle(places)]
fn push_call(
    alloc: Global,
    tables: &Tables<'_>,
    depth: usize,
    places: &mut Vec<Option<Place>>,
    path: &[u32],
    call: &Call<'_>,
) -> Result<(), AllocError>
    ensures { OnOk result (map place_seen places.new.items ≡ map place_seen places.old.items
        ++ named_places (places_within depth (map plan_view tables.now.plans.items))
        (map plan_view tables.now.plans.items) path.now (call_view call.now)) }
{
    let plan = plan_named(tables, &call.callee.text);
    let way = way_to(alloc, path, call.number)?;
    push_held(alloc, places, &way, call, plan.outputs)?;
    push_frame(alloc, tables, depth, places, call.way, &way, plan)
}

/// The places of a frame that no other stands in, and of those of its calls.
fn frame_places(
    alloc: Global,
    tables: &Tables<'_>,
    depth: usize,
    plan: &Plan<'_>,
) -> Result<Vec<Option<Place>>, AllocError>
    ensures { IfOk result (λ v. map place_seen v.items
        ≡ places_within depth (map plan_view tables.now.plans.items) Plain [] (plan_view plan.now)) }
{
    let mut places = Vec::new(alloc);
    push_frame(alloc, tables, depth, &mut places, Way::Plain, &[], plan)?;
    Ok(places)
}

/// The places that printed text has for the variables of the system of a declaration of a checked program, in their
/// order: a name has its own, the memory of a `pre` that of its first value, and a held value that of its output. The
/// others have none.
fn places_of(
    alloc: Global,
    program: &Program,
    node: Owner<'_>,
) -> Result<Vec<Option<Place>>, AllocError>
    requires checked { IsChecked (program_view program.now) }
    requires declared { Contains (components (program_view program.now)) (owner_view node) }
    ensures exact { IfOk result (λ v. map place_seen v.items
        ≡ map printed_slot (slots (instance_of (program_view program.now) (owner_view node.entry)))) }
{
    let tables = tables_of(alloc, program)?;
    let plan = plan_of(alloc, node)?;
    frame_places(alloc, &tables, program.decls.len(), &plan)
}

/// The place that printed text has for the variable of that number of the system of a declaration of a checked program.
/// None where it has none, and where there is no variable of that number.
///
/// # Errors
///
/// Only want of memory.
pub fn place_of(
    alloc: Global,
    program: &Program,
    node: Owner<'_>,
    number: u32,
) -> Result<Option<Place>, AllocError>
    requires checked { IsChecked (program_view program.now) }
    requires declared { Contains (components (program_view program.now)) (owner_view node) }
    ensures exact { IfOk result (λ o. option_map place_view o
        ≡ printed_place (instance_of (program_view program.now) (owner_view node.entry)) number) }
{
    let mut places = places_of(alloc, program, node)?;
    let number = number as usize;
    if number < places.len() {
        Ok(places.swap_remove(number))
    } else {
        Ok(None)
    }
}
