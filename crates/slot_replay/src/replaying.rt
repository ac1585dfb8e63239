//! The replay.

ghost use Rattle.std.specs.Prelude.{◌≡◌, ℕ, IfErr, IfOk, OnOk, map};
ghost use Rattle.slot_sources.specs.Source.{source_view};
ghost use Rattle.slot_rows.specs.Table.{rows, value_in};
ghost use Rattle.slot_replay.specs.Conditions.{conditions_view};
ghost use Rattle.slot_replay.specs.Answer.{AreBreaks, AreLawful, GoesThrough, IsPast, seen_in};
ghost use Rattle.slot_replay.specs.Shown.{replayed_view};

use crate::conditions::Conditions;
use crate::fault::ReplayFault;
use crate::parts::Parts;
use crate::replayed::Replayed;
use crate::watching::watch;
use slot_rows::{Chosen, fill};
use slot_sources::Source;
use std::alloc::Global;

/// The replay of sources over so many instants, whose slots get their values in that order.
///
/// # Errors
///
/// `Past` at the first instant at which a part has an operation outside 128 bits, from the first instant on at
/// which one was outside in the table or a condition: the first operation of the first such part. `Memory` for want
/// of memory.
pub fn replay<C: Chosen, P: Parts>(
    alloc: Global,
    sources: &[Source],
    order: &[usize],
    chosen: &C,
    instants: u32,
    conditions: &Conditions,
    parts: &P,
) -> Result<Replayed, ReplayFault>
    // An operation that is told is the first one.
    ensures past { IfErr result (IsPast (seen_in (rows (C.choices chosen.now)
        (map source_view sources.now) order.now instants))
        (conditions_view conditions.now) (P.are_parts parts.now) instants) }
    // Where there is an answer no part had one, once something was outside.
    ensures going_on { OnOk result (GoesThrough (seen_in
        (rows (C.choices chosen.now) (map source_view sources.now) order.now instants))
        (conditions_view conditions.now) (P.are_parts parts.now) instants) }
    // The first lawful instants at which properties are not true.
    ensures breaks { IfOk result (λ r. AreBreaks (value_in
        (rows (C.choices chosen.now) (map source_view sources.now) order.now instants))
        (conditions_view conditions.now) instants (replayed_view r).breaks) }
    // How many instants are lawful.
    ensures lawful { IfOk result (λ r. AreLawful (value_in
        (rows (C.choices chosen.now) (map source_view sources.now) order.now instants))
        (conditions_view conditions.now) instants (replayed_view r).lawful) }
    // Slots have the values of the table.
    ensures value { IfOk result (λ r. (k t : ℕ) → (replayed_view r).value k t
        ≡ value_in (rows (C.choices chosen.now) (map source_view sources.now) order.now instants) t k) }
{
    let table = fill(alloc, sources, order, chosen, instants)?;
    let marks = watch(alloc, &table, conditions, parts, instants)?;
    Ok(Replayed {
        table,
        lawful: marks.lawful,
        broken: marks.broken,
    })
}
