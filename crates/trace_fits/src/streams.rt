//! What may be listed of a frame itself.

ghost use Rattle.std.specs.Prelude.{◌≡◌, ◌++◌, ◌∷◌, ◌+◌, ◌<◌, ◌^◌, [], IfOk, OnOk, length, map};
ghost use Rattle.lus_tree.specs.View.{param_view};
ghost use Rattle.sys_conditions.specs.Views.{memory_view};
ghost use Rattle.sys_tables.specs.Views.{named_view};
ghost use Rattle.sys_texts.specs.Views.{sight_view};
ghost use Rattle.trace_fits.specs.Views.{slotted_view};
ghost use Rattle.trace_fits.specs.Walked.{free_listed, is_chosen, memories_listed, memory_listed, name_listed, stream_listed, streams_listed};

use crate::permitted::Listable;
use crate::place::Subject;
use lus_limits::Way;
use lus_tree::Param;
use std::alloc::{AllocError, Global};
use sys_conditions::occurrences::Memory;
use sys_tables::table::Named;
use sys_texts::sight::Sight;
use sys_texts::sorts::sort_of;

/// A name at the end of a way.
fn name_listed<'a>(
    alloc: Global,
    path: &[u32],
    instants: u32,
    needed: bool,
    slot: u32,
    param: &'a Param,
) -> Result<Listable<'a>, AllocError>
    ensures { IfOk result (λ s. slotted_view s ≡ name_listed path.now instants needed slot (param_view param.now)) }
{
    Ok(Listable {
        path: path.to_vec(alloc)?,
        what: Subject::Name(&param.name.text),
        sort: param.sort,
        count: instants,
        needed,
        slot,
    })
}

/// Whether a stream is an input, or is neither one nor has an equation.
fn is_chosen(inputs: bool, stream: &Named<'_>) -> bool
    ensures { result ≡ is_chosen inputs (named_view stream.now) }
{
    if inputs {
        stream.input
    } else {
        stream.right.is_none() && !stream.input
    }
}

/// The list, and behind it a stream, where it is an input or free.
fn push_stream<'a>(
    list: &mut Vec<Listable<'a>>,
    alloc: Global,
    path: &[u32],
    instants: u32,
    inputs: bool,
    slot: u32,
    stream: &Named<'a>,
) -> Result<(), AllocError>
    ensures { OnOk result (map slotted_view list.new.items ≡ map slotted_view list.old.items
        ++ stream_listed path.now instants inputs slot (named_view stream.now)) }
{
    if is_chosen(inputs, stream) {
        let listable = name_listed(alloc, path, instants, inputs, slot, stream.param)?;
        list.push(listable)?;
    }
    Ok(())
}

/// The list, and behind it the inputs among these streams, or those that are free, of which the first has the number
/// `first`.
pub(crate) fn push_streams<'a>(
    list: &mut Vec<Listable<'a>>,
    alloc: Global,
    path: &[u32],
    instants: u32,
    inputs: bool,
    first: u32,
    streams: &[Named<'a>],
) -> Result<(), AllocError>
    requires { first + length streams.now < 2 ^ 32 }
    ensures { OnOk result (map slotted_view list.new.items ≡ map slotted_view list.old.items
        ++ streams_listed path.now instants inputs first (map named_view streams.now)) }
{
    let mut slot = first;
    for stream in streams {
        push_stream(list, alloc, path, instants, inputs, slot, stream)?;
        slot += 1;
    }
    Ok(())
}

/// The list, and behind it the free streams of a frame that runs so.
pub(crate) fn push_free<'a>(
    list: &mut Vec<Listable<'a>>,
    alloc: Global,
    path: &[u32],
    instants: u32,
    way: Way,
    first: u32,
    streams: &[Named<'a>],
) -> Result<(), AllocError>
    requires { first + length streams.now < 2 ^ 32 }
    ensures { OnOk result (map slotted_view list.new.items ≡ map slotted_view list.old.items
        ++ free_listed way path.now instants first (map named_view streams.now)) }
{
    match way {
        Way::Import => Ok(()),
        Way::Plain | Way::Condition => {
            push_streams(list, alloc, path, instants, false, first, streams)
        }
    }
}

/// The first value of a memory at the end of a way.
fn memory_listed<'a>(
    alloc: Global,
    path: &[u32],
    sight: &Sight<'_>,
    slot: u32,
    memory: &Memory<'_>,
) -> Result<Listable<'a>, AllocError>
    ensures { IfOk result (λ s. slotted_view s
        ≡ memory_listed (sight_view sight.now) path.now slot (memory_view memory.now)) }
{
    Ok(Listable {
        path: path.to_vec(alloc)?,
        what: Subject::First(memory.number),
        sort: sort_of(sight, memory.operand),
        count: 1,
        needed: false,
        slot,
    })
}

/// The list, and behind it the first values of memories, of which the first has the number `first`.
pub(crate) fn push_memories(
    list: &mut Vec<Listable<'_>>,
    alloc: Global,
    path: &[u32],
    sight: &Sight<'_>,
    first: u32,
    memories: &[Memory<'_>],
) -> Result<(), AllocError>
    requires { first + length memories.now < 2 ^ 32 }
    ensures { OnOk result (map slotted_view list.new.items ≡ map slotted_view list.old.items
        ++ memories_listed (sight_view sight.now) path.now first (map memory_view memories.now)) }
{
    let mut slot = first;
    for memory in memories {
        list.push(memory_listed(alloc, path, sight, slot, memory)?)?;
        slot += 1;
    }
    Ok(())
}
