//! The outputs of calls as parts.

ghost use Rattle.std.specs.Prelude.{◌≡◌, ◌++◌, IfOk, OnOk, map};
ghost use Rattle.sys_meaning.specs.Translate.{head_part};
ghost use Rattle.sys_parts.specs.Parts.{part_view};
ghost use Rattle.sys_texts.specs.Sights.{latest_at, latest_part, output_part, outputs_at};
ghost use Rattle.sys_texts.specs.Views.{output_view, sight_view};

use crate::sight::{Output, Sight, call_at};
use std::alloc::{AllocError, Global};
use sys_parts::choices::choose_part;
use sys_parts::formulas::flag;
use sys_parts::parts::{Part, no_part, variable};

/// An output's variable.
fn output_part(output: Output) -> Part
    ensures { part_view result ≡ output_part (output_view output) }
{
    variable(output.sort, output.number)
}

/// An output where its frame is active, else what is held of it.
///
/// # Errors
///
/// Want of memory.
pub fn latest_part(alloc: Global, beat: u32, output: Output) -> Result<Part, AllocError>
    ensures { IfOk result (λ r. part_view r ≡ latest_part beat (output_view output)) }
{
    let now = output_part(output);
    choose_part(alloc, flag(beat), now, variable(output.sort, output.held))
}

/// The first output of a call.
pub(crate) fn first_output(sight: &Sight<'_>, number: u32) -> Part
    ensures { part_view result ≡ head_part (outputs_at (sight_view sight.now) number) }
{
    match call_at(sight, number) {
        Some(call) => first_of(&call.outputs),
        None => no_part(),
    }
}

/// The first of these outputs.
fn first_of(outputs: &[Output]) -> Part
    ensures { part_view result ≡ head_part (map output_part (map output_view outputs.now)) }
{
    match outputs {
        [] => no_part(),
        [first, ..] => output_part(*first),
    }
}

/// The first output of a call, where it may be held.
pub(crate) fn first_latest(
    alloc: Global,
    sight: &Sight<'_>,
    number: u32,
) -> Result<Part, AllocError>
    ensures { IfOk result (λ r. part_view r ≡ head_part (latest_at (sight_view sight.now) number)) }
{
    match call_at(sight, number) {
        Some(call) => first_latest_of(alloc, call.beat, &call.outputs),
        None => Ok(no_part()),
    }
}

/// The first of these outputs, where it may be held.
fn first_latest_of(alloc: Global, beat: u32, outputs: &[Output]) -> Result<Part, AllocError>
    ensures { IfOk result (λ r. part_view r ≡ head_part (map (latest_part beat) (map output_view outputs.now))) }
{
    match outputs {
        [] => Ok(no_part()),
        [first, ..] => latest_part(alloc, beat, *first),
    }
}

/// The parts, and behind them these outputs.
fn push_outputs_of(parts: &mut Vec<Part>, outputs: &[Output]) -> Result<(), AllocError>
    ensures { OnOk result (map part_view parts.new.items ≡ map part_view parts.old.items
        ++ map output_part (map output_view outputs.now)) }
{
    for output in outputs {
        parts.push(output_part(*output))?;
    }
    Ok(())
}

/// The outputs of a call.
pub(crate) fn outputs_at(
    alloc: Global,
    sight: &Sight<'_>,
    number: u32,
) -> Result<Vec<Part>, AllocError>
    ensures { IfOk result (λ v. map part_view v.items ≡ outputs_at (sight_view sight.now) number) }
{
    let mut parts = Vec::new(alloc);
    if let Some(call) = call_at(sight, number) {
        push_outputs_of(&mut parts, &call.outputs)?;
    }
    Ok(parts)
}

/// The parts, and behind them these outputs, where they may be held.
fn push_latest_of(
    alloc: Global,
    parts: &mut Vec<Part>,
    beat: u32,
    outputs: &[Output],
) -> Result<(), AllocError>
    ensures { OnOk result (map part_view parts.new.items ≡ map part_view parts.old.items
        ++ map (latest_part beat) (map output_view outputs.now)) }
{
    for output in outputs {
        let part = latest_part(alloc, beat, *output)?;
        parts.push(part)?;
    }
    Ok(())
}

/// The outputs of a call, where they may be held.
pub(crate) fn latest_at(
    alloc: Global,
    sight: &Sight<'_>,
    number: u32,
) -> Result<Vec<Part>, AllocError>
    ensures { IfOk result (λ v. map part_view v.items ≡ latest_at (sight_view sight.now) number) }
{
    let mut parts = Vec::new(alloc);
    if let Some(call) = call_at(sight, number) {
        push_latest_of(alloc, &mut parts, call.beat, &call.outputs)?;
    }
    Ok(parts)
}
