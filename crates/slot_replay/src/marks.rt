//! What is noted from instant to instant.

ghost use Rattle.std.specs.Prelude.{◌≡◌, ◌+◌, ◌<◌, ◌^◌, ◌&&◌, ◌||◌, ◌++◌, ◌∷◌, [], true, suc, cond, eqb, map, length, get_or, None, IfOk, OnOk};
ghost use Rattle.slot_values.specs.Resolution.{resolved_view};
ghost use Rattle.slot_values.specs.Evaluated.{outside, slots_in};
ghost use Rattle.slot_rows.specs.Table.{is_any};
ghost use Rattle.slot_replay.specs.Conditions.{any_outside, conditions_view, is_true};
ghost use Rattle.slot_replay.specs.Marks.{marked, marks_after, marks_view, noted};

use crate::conditions::Conditions;
use crate::truth::{truth_in, truths_in};
use slot_values::{Resolved, SlotValue};
use std::alloc::{AllocError, Global};

/// How many instants are lawful, the first ones, and for each property the first of them at which it is not true.
#[derive(Drop)]
pub(crate) struct Marks {
    pub(crate) lawful: u32,
    pub(crate) broken: Vec<Option<u32>>,
}

/// What was found of a property before, else this instant where it counts and the property is not true there.
fn marked(found: Option<u32>, truth: bool, counts: bool, instant: u32) -> Option<u32>
    ensures { result ≡ marked truth counts instant found }
{
    match found {
        Some(earlier) => Some(earlier),
        None => {
            if counts && !truth {
                Some(instant)
            } else {
                None
            }
        }
    }
}

/// What was found of the property with that number.
pub(crate) fn found_of(broken: &[Option<u32>], property: usize) -> Option<u32>
    ensures { result ≡ get_or broken.now property None }
{
    match broken.get(property) {
        Some(found) => *found,
        None => None,
    }
}

/// Adds what is found of the property that comes next. Whether it has an operation outside 128 bits.
fn push_marked(
    property: &Resolved,
    row: &[SlotValue],
    counts: bool,
    instant: u32,
    broken: &[Option<u32>],
    new: &mut Vec<Option<u32>>,
) -> Result<bool, AllocError>
    ensures outside { IfOk result (λ b. b ≡ is_any (outside (slots_in row.now) true (resolved_view property.now))) }
    ensures pushed { OnOk result (new.new.items ≡ new.old.items
        ++ marked (is_true (slots_in row.now) (resolved_view property.now)) counts instant
        (get_or broken.now (length new.old.items) None) ∷ []) }
{
    let (truth, past) = truth_in(property, row);
    let found = found_of(broken, new.len());
    new.push(marked(found, truth, counts, instant))?;
    Ok(past)
}

/// What is found of each property, by an instant that counts or doesn't. Whether one has an operation outside 128 bits.
fn noted(
    alloc: Global,
    properties: &[Resolved],
    row: &[SlotValue],
    counts: bool,
    instant: u32,
    broken: &[Option<u32>],
) -> Result<(Vec<Option<u32>>, bool), AllocError>
    ensures noted { IfOk result (λ r. r.0.items
        ≡ noted (slots_in row.now) counts instant 0 (map resolved_view properties.now) broken.now) }
    ensures outside { IfOk result (λ r. r.1 ≡ any_outside (slots_in row.now) (map resolved_view properties.now)) }
{
    let mut new = Vec::new(alloc);
    let mut outside = false;
    for property in properties {
        let past = push_marked(property, row, counts, instant, broken, &mut new)?;
        outside |= past;
    }
    Ok((new, outside))
}

/// Whether an instant is lawful, where so many are before it.
fn does_count(legal: bool, lawful: u32, instant: u32) -> bool
    ensures { result ≡ (legal && eqb lawful instant) }
{
    legal && lawful == instant
}

/// How many instants are lawful behind one that counts or doesn't.
fn lawful_after(counts: bool, lawful: u32, instant: u32) -> u32
    requires { instant + 1 < 2 ^ 32 }
    ensures { result ≡ cond counts (suc instant) lawful }
{
    if counts { instant + 1 } else { lawful }
}

/// Notes an instant. Whether a condition has an operation outside 128 bits there.
pub(crate) fn note_instant(
    alloc: Global,
    conditions: &Conditions,
    row: &[SlotValue],
    instant: u32,
    marks: &Marks,
) -> Result<(Marks, bool), AllocError>
    requires { instant + 1 < 2 ^ 32 }
    ensures marks { IfOk result (λ r. marks_view r.0
        ≡ marks_after (slots_in row.now) (conditions_view conditions.now) instant (marks_view marks.now)) }
    ensures outside { IfOk result (λ r. r.1 ≡ (any_outside (slots_in row.now) (conditions_view conditions.now).legal
        || any_outside (slots_in row.now) (conditions_view conditions.now).properties)) }
{
    let (legal, past) = truths_in(&conditions.legal, row);
    let counts = does_count(legal, marks.lawful, instant);
    let (broken, other) = noted(
        alloc,
        &conditions.properties,
        row,
        counts,
        instant,
        &marks.broken,
    )?;
    let lawful = lawful_after(counts, marks.lawful, instant);
    Ok((Marks { lawful, broken }, past | other))
}
