//! Going over the instants.

ghost use Rattle.std.specs.Prelude.{◌≡◌, ◌+◌, ◌<◌, ◌^◌, None, suc, IfErr, IfOk, OnOk};
ghost use Rattle.slot_values.specs.Evaluated.{slots_in};
ghost use Rattle.slot_rows.specs.Table.{table_view, value_in};
ghost use Rattle.slot_replay.specs.Conditions.{conditions_view};
ghost use Rattle.slot_replay.specs.Parts.{kept_view};
ghost use Rattle.slot_replay.specs.Answer.{GoesThrough, IsKept, IsKeptAfter, IsPast, IsTold, first_kept, seen_in};
ghost use Rattle.slot_replay.specs.Marks.{marks_after, marks_at, marks_view};

use crate::conditions::Conditions;
use crate::fault::ReplayFault;
use crate::marks::{Marks, note_instant};
use crate::parts::{PartAt, Parts, first_past};
use slot_rows::Table;
use slot_values::SlotValue;
use std::alloc::{AllocError, Global};

/// What is carried from instant to instant: what is noted, and the parts once something was outside 128 bits.
#[derive(Drop)]
struct Progress {
    marks: Marks,
    parts: Option<Vec<PartAt>>,
}

/// The parts, which are made where something is outside for the first time.
fn kept<P: Parts>(
    alloc: Global,
    parts: &P,
    earlier: Option<Vec<PartAt>>,
    outside: bool,
) -> Result<Option<Vec<PartAt>>, AllocError>
    ensures { IfOk result (λ k. IsKeptAfter (kept_view earlier) outside (P.are_parts parts.now) (kept_view k)) }
{
    match earlier {
        Some(parts) => Ok(Some(parts)),
        None => {
            if outside {
                Ok(Some(parts.in_order(alloc)?))
            } else {
                Ok(None)
            }
        }
    }
}

/// Goes on, unless one of the parts that are looked at has an operation outside 128 bits.
fn go_on(parts: &Option<Vec<PartAt>>, row: &[SlotValue], instant: u32) -> Result<(), ReplayFault>
    ensures past { IfErr result (IsTold (first_kept (slots_in row.now) (kept_view parts.now)) instant) }
    ensures none { OnOk result (first_kept (slots_in row.now) (kept_view parts.now) ≡ None) }
{
    let first = match parts {
        Some(parts) => first_past(parts, row),
        None => None,
    };
    match first {
        Some(first) => Err(ReplayFault::Past {
            at: first.at,
            instant,
            past: first.past,
        }),
        None => Ok(()),
    }
}

/// Notes an instant, and goes on.
fn watch_instant<P: Parts>(
    alloc: Global,
    table: &Table,
    conditions: &Conditions,
    parts: &P,
    instant: u32,
    progress: Progress,
) -> Result<Progress, ReplayFault>
    requires room { instant + 1 < 2 ^ 32 }
    requires kept { IsKept (seen_in (table_view table.now)) (conditions_view conditions.now)
        (P.are_parts parts.now) instant (kept_view progress.parts) }
    ensures past { IfErr result (IsPast (seen_in (table_view table.now)) (conditions_view conditions.now)
        (P.are_parts parts.now) (suc instant)) }
    ensures kept { IfOk result (λ p. IsKept (seen_in (table_view table.now)) (conditions_view conditions.now)
        (P.are_parts parts.now)
        (suc instant) (kept_view p.parts)) }
    ensures marks { IfOk result (λ p. marks_view p.marks
        ≡ marks_after (value_in (table_view table.now) instant) (conditions_view conditions.now) instant
        (marks_view progress.marks)) }
{
    let row = table.row(instant as usize);
    let (marks, past) = note_instant(alloc, conditions, row, instant, &progress.marks)?;
    let outside = table.met_outside(instant as usize) | past;
    let parts = kept(alloc, parts, progress.parts, outside)?;
    match go_on(&parts, row, instant) {
        Ok(()) => Ok(Progress { marks, parts }),
        Err(fault) => Err(fault),
    }
}

/// What is noted of so many instants.
pub(crate) fn watch<P: Parts>(
    alloc: Global,
    table: &Table,
    conditions: &Conditions,
    parts: &P,
    instants: u32,
) -> Result<Marks, ReplayFault>
    ensures past { IfErr result (IsPast (seen_in (table_view table.now)) (conditions_view conditions.now)
        (P.are_parts parts.now) instants) }
    ensures going_on { OnOk result (GoesThrough (seen_in (table_view table.now)) (conditions_view conditions.now)
        (P.are_parts parts.now) instants) }
    ensures marks { IfOk result (λ m. marks_view m
        ≡ marks_at (value_in (table_view table.now)) (conditions_view conditions.now) instants) }
{
    let mut progress = Progress {
        marks: Marks {
            lawful: 0,
            broken: Vec::new(alloc),
        },
        parts: None,
    };
    for instant in 0..instants {
        progress = watch_instant(alloc, table, conditions, parts, instant, progress)?;
    }
    Ok(progress.marks)
}
