//! The sight of a frame: what its names and numbers mean.

ghost use Rattle.std.specs.Prelude.{◌≡◌, ◌+◌, ◌<◌, ◌^◌, IfOk, length, map, option_map, suc};
ghost use Rattle.std.specs.List.{AllByRecursion};
ghost use Rattle.std.specs.Map.{lookup};
ghost use Rattle.std.specs.Str.{bytes_eq};
ghost use Rattle.lus_tree.specs.Numbers.{counting};
ghost use Rattle.lus_tree.specs.Tree.{Name};
ghost use Rattle.lus_tree.specs.View.{param_view};
ghost use Rattle.sys_parts.specs.Constants.{constant_view};
ghost use Rattle.sys_texts.specs.Views.{by_name, call_view, output_view, sight_view, stream_view};
ghost use Rattle.sys_tables.specs.Numbers.{CallHasRoom, HasRoom, behind_own, call_at, first_memory, first_start, held_or, outputs_from, sight_at, so_far_number, stream_from};
ghost use Rattle.sys_tables.specs.Views.{linked_view, named_view, table_view};

use crate::constants::values_by_name;
use crate::noting::note;
use crate::numbers::{behind_own, first_held, first_memory, first_start, frame_base, way_of};
use crate::table::{Linked, Named, Table};
use indexmap::IndexMap;
use lus_limits::Way;
use lus_streams::clock::declared;
use lus_tree::Param;
use std::alloc::{AllocError, Global};
use sys_parts::constant::Constant;
use sys_texts::sight::{Call, Output, Sight, Stream};

/// The numbers from `first` on, as many as said.
#[tactic(auto, using(crate::proofs::Counted::counting_step))]
fn numbers_from(alloc: Global, first: u32, count: usize) -> Result<Vec<u32>, AllocError>
    requires { first + count < 2 ^ 32 }
    ensures { IfOk result (λ v. v.items ≡ counting first count) }
{
    let mut numbers = Vec::with_capacity(alloc, count)?;
    for number in first..first + count as u32 {
        numbers.push(number)?;
    }
    Ok(numbers)
}

/// Streams by their names, of which the first has the number `first`.
fn streams_from<'a>(
    alloc: Global,
    first: u32,
    streams: &[Named<'a>],
) -> Result<IndexMap<&'a str, Stream<'a>>, AllocError>
    requires { first + length streams.now < 2 ^ 32 }
    ensures { IfOk result (λ m. (x : Name) → option_map stream_view (by_name m x)
        ≡ stream_from first (map named_view streams.now) x) }
{
    let mut table = IndexMap::new(alloc);
    let mut number = first;
    for stream in streams {
        let param = stream.param;
        let meaning = Stream {
            sort: param.sort,
            number,
            clock: declared(&param.clock),
        };
        note(&mut table, &param.name.text, meaning)?;
        number += 1;
    }
    Ok(table)
}

/// What holds an output, for a call under a condition alone.
fn held_or(way: Way, number: u32, missing: u32) -> u32
    ensures { result ≡ held_or way number missing }
{
    match way {
        Way::Condition => number,
        Way::Plain | Way::Import => missing,
    }
}

/// Outputs, of which the first has the number `first` and is held by that of the number `held`.
fn outputs_from(
    alloc: Global,
    way: Way,
    first: u32,
    held: u32,
    missing: u32,
    outputs: &[Param],
) -> Result<Vec<Output>, AllocError>
    requires first { first + length outputs.now < 2 ^ 32 }
    requires held { held + length outputs.now < 2 ^ 32 }
    ensures { IfOk result (λ v. map output_view v.items
        ≡ outputs_from way first held missing (map param_view outputs.now)) }
{
    let mut found = Vec::with_capacity(alloc, outputs.len())?;
    let mut number = first;
    let mut holder = held;
    for output in outputs {
        found.push(Output {
            sort: output.sort,
            number,
            held: held_or(way, holder, missing),
        })?;
        number += 1;
        holder += 1;
    }
    Ok(found)
}

/// A call in a frame, by the first number behind the frame's own variables.
fn call_at<'a>(
    alloc: Global,
    from: u32,
    missing: u32,
    linked: &Linked<'a>,
) -> Result<Call<'a>, AllocError>
    requires { CallHasRoom from (linked_view linked.now) }
    ensures { IfOk result (λ c. call_view c ≡ call_at from missing (linked_view linked.now)) }
{
    let beat = frame_base(from, linked);
    let first = beat + (1 + linked.inputs as u32);
    let held = first_held(from, linked);
    let way = way_of(linked.site.manner);
    Ok(Call {
        callee: linked.site.callee,
        beat,
        outputs: outputs_from(alloc, way, first, held, missing, linked.outputs)?,
    })
}

/// The calls of a frame, by the first number behind the frame's own variables.
fn calls_at<'a>(
    alloc: Global,
    from: u32,
    missing: u32,
    calls: &[Linked<'a>],
) -> Result<Vec<Call<'a>>, AllocError>
    requires { AllByRecursion (CallHasRoom from) (map linked_view calls.now) }
    ensures { IfOk result (λ v. map call_view v.items ≡ map (call_at from missing) (map linked_view calls.now)) }
{
    let mut found = Vec::with_capacity(alloc, calls.len())?;
    for call in calls {
        found.push(call_at(alloc, from, missing, call)?)?;
    }
    Ok(found)
}

/// The constants of a declaration by their names.
fn constants_of<'a>(
    alloc: Global,
    table: &Table<'a>,
) -> Result<IndexMap<&'a str, Constant>, AllocError>
    ensures { IfOk result (λ m. (x : Name) → option_map constant_view (by_name m x)
        ≡ lookup (bytes_eq x) (table_view table.now).constants) }
{
    values_by_name(alloc, &table.constants)
}

/// The streams of a frame by their names.
fn streams_at<'a>(
    alloc: Global,
    table: &Table<'a>,
    base: u32,
) -> Result<IndexMap<&'a str, Stream<'a>>, AllocError>
    requires { so_far_number (table_view table.now) base < 2 ^ 32 }
    ensures { IfOk result (λ m. (x : Name) → option_map stream_view (by_name m x)
        ≡ stream_from (suc base) (table_view table.now).streams x) }
{
    streams_from(alloc, base + 1, &table.streams)
}

/// The numbers of the memories of a frame.
fn memories_at(alloc: Global, table: &Table<'_>, base: u32) -> Result<Vec<u32>, AllocError>
    requires { so_far_number (table_view table.now) base < 2 ^ 32 }
    ensures { IfOk result (λ v. v.items
        ≡ counting (first_memory (table_view table.now) base) (length (table_view table.now).memories)) }
{
    numbers_from(alloc, first_memory(table, base), table.memories.len())
}

/// The numbers of the starts of a frame.
fn starts_at(alloc: Global, table: &Table<'_>, base: u32) -> Result<Vec<u32>, AllocError>
    requires { so_far_number (table_view table.now) base < 2 ^ 32 }
    ensures { IfOk result (λ v. v.items
        ≡ counting (first_start (table_view table.now) base) (length (table_view table.now).starts)) }
{
    numbers_from(alloc, first_start(table, base), table.starts.len())
}

/// The calls of a frame that runs so.
fn calls_of<'a>(
    alloc: Global,
    table: &Table<'a>,
    way: Way,
    base: u32,
    missing: u32,
) -> Result<Vec<Call<'a>>, AllocError>
    requires { HasRoom way (table_view table.now) base }
    ensures { IfOk result (λ v. map call_view v.items
        ≡ map (call_at (behind_own way (table_view table.now) base) missing) (table_view table.now).calls) }
{
    calls_at(alloc, behind_own(table, way, base), missing, &table.calls)
}

/// How many streams a frame has.
fn stream_count(table: &Table<'_>) -> usize
    ensures { result ≡ length (table_view table.now).streams }
{
    table.streams.len()
}

/// The sight of a frame that runs so, of which the beat has the number `base`; what isn't there has the number
/// `missing`.
///
/// # Errors
///
/// Want of memory.
pub fn sight<'a>(
    alloc: Global,
    table: &Table<'a>,
    way: Way,
    base: u32,
    missing: u32,
) -> Result<Sight<'a>, AllocError>
    requires room { HasRoom way (table_view table.now) base }
    ensures { IfOk result (λ s. sight_view s ≡ sight_at (table_view table.now) way base missing) }
{
    let constants = constants_of(alloc, table)?;
    let streams = streams_at(alloc, table, base)?;
    let memories = memories_at(alloc, table, base)?;
    let starts = starts_at(alloc, table, base)?;
    let calls = calls_of(alloc, table, way, base, missing)?;
    let bound = stream_count(table);
    Ok(Sight {
        beat: base,
        missing,
        bound,
        constants,
        streams,
        memories,
        starts,
        calls,
    })
}
