//! The slots of a row in turn: those that are given their values at their instant, and those to which something is
//! brought from the row before.

ghost use Rattle.std.specs.Prelude.{◌≡◌, IfOk, OnOk, ◌++◌, Some, map, slice_get};
ghost use Rattle.slot_sources.specs.Source.{source_view};
ghost use Rattle.slot_rows.specs.Table.{is_brought};
ghost use Rattle.slot_rows.specs.InTurn.{AreTurns};
ghost use Rattle.slot_rows.specs.Turns.{takes_over, turn_brought, turn_given, turn_view, turns_brought, turns_given};

use crate::turn::Turn;
use slot_sources::Source;
use std::alloc::{AllocError, Global};

/// Whether a slot has what was brought to it, or nothing.
fn is_brought(source: &Source) -> bool
    ensures { result ≡ is_brought (source_view source.now) }
{
    match source {
        Source::Remembered(_, _) | Source::Starting(_) | Source::Held { .. } | Source::Unread =>
            true,
        Source::Always
        | Source::Runs(_)
        | Source::RunsWhile(_, _)
        | Source::Same(_)
        | Source::Given(_, _)
        | Source::Argument(_, _, _)
        | Source::Listed(_) => false,
    }
}

/// Whether something is brought to a slot.
fn takes_over(source: &Source) -> bool
    ensures { result ≡ takes_over (source_view source.now) }
{
    match source {
        Source::Remembered(_, _) | Source::Starting(_) | Source::Held { .. } => true,
        Source::Always
        | Source::Runs(_)
        | Source::RunsWhile(_, _)
        | Source::Same(_)
        | Source::Given(_, _)
        | Source::Argument(_, _, _)
        | Source::Listed(_)
        | Source::Unread => false,
    }
}

/// The slots of a row in turn.
#[derive(Drop)]
pub(crate) struct Turns<'s> {
    pub(crate) sources: &'s [Source],
    pub(crate) order: &'s [usize],
    pub(crate) given: Vec<Turn<'s>>,
    pub(crate) brought: Vec<Turn<'s>>,
}

/// The turn of a slot, unless it has what was brought to it, or nothing.
fn push_unless_brought<'s>(
    source: &'s Source,
    slot: usize,
    turns: &mut Vec<Turn<'s>>,
) -> Result<(), AllocError>
    ensures { OnOk result (map turn_view turns.new.items ≡ map turn_view turns.old.items
        ++ turn_given slot (Some (source_view source.now))) }
{
    if !is_brought(source) {
        turns.push(Turn::of(slot, source))?;
    }
    Ok(())
}

/// The turn of the slot with that number, if there is one that is given its value at its instant.
#[tactic(auto, using(crate::proofs::InTurn::none_behind))]
fn push_given<'s>(
    sources: &'s [Source],
    slot: usize,
    turns: &mut Vec<Turn<'s>>,
) -> Result<(), AllocError>
    ensures { OnOk result (map turn_view turns.new.items ≡ map turn_view turns.old.items
        ++ turn_given slot (slice_get (map source_view sources.now) slot)) }
{
    if slot < sources.len() {
        push_unless_brought(&sources[slot], slot, turns)
    } else {
        Ok(())
    }
}

/// The turns of those slots of an order that are given their values at their instant.
fn given_turns<'s>(
    alloc: Global,
    sources: &'s [Source],
    order: &[usize],
) -> Result<Vec<Turn<'s>>, AllocError>
    ensures { IfOk result (λ v. map turn_view v.items ≡ turns_given (map source_view sources.now) order.now) }
{
    let mut turns = Vec::new(alloc);
    for slot in order {
        push_given(sources, *slot, &mut turns)?;
    }
    Ok(turns)
}

/// The turn of a slot, if something is brought to it.
fn push_brought<'s>(
    source: &'s Source,
    slot: usize,
    turns: &mut Vec<Turn<'s>>,
) -> Result<(), AllocError>
    ensures { OnOk result (map turn_view turns.new.items ≡ map turn_view turns.old.items
        ++ turn_brought slot (source_view source.now)) }
{
    if takes_over(source) {
        turns.push(Turn::of(slot, source))?;
    }
    Ok(())
}

/// The turns of the slots to which something is brought.
fn brought_turns<'s>(alloc: Global, sources: &'s [Source]) -> Result<Vec<Turn<'s>>, AllocError>
    ensures { IfOk result (λ v. map turn_view v.items ≡ turns_brought 0 (map source_view sources.now)) }
{
    let mut turns = Vec::new(alloc);
    let mut slot = 0;
    for source in sources {
        push_brought(source, slot, &mut turns)?;
        slot += 1;
    }
    Ok(turns)
}

impl<'s> Turns<'s> {
    /// The turns of slots that get their values in that order.
    pub(crate) fn of(
        alloc: Global,
        sources: &'s [Source],
        order: &'s [usize],
    ) -> Result<Turns<'s>, AllocError>
        ensures sources { IfOk result (λ t. t.sources.now ≡ sources.now) }
        ensures order { IfOk result (λ t. t.order.now ≡ order.now) }
        ensures turns { IfOk result AreTurns }
    {
        let given = given_turns(alloc, sources, order)?;
        let brought = brought_turns(alloc, sources)?;
        Ok(Turns {
            sources,
            order,
            given,
            brought,
        })
    }
}
