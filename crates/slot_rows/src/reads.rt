//! What sources read at the instant of their slots.

ghost use Rattle.std.specs.Prelude.{◌≡◌, ◌++◌, IfOk, OnOk};
ghost use Rattle.slot_values.specs.Resolution.{resolved_view};
ghost use Rattle.slot_sources.specs.Source.{source_view};
ghost use Rattle.slot_sources.specs.Rows.{reads_now, slots_read};

use slot_sources::Source;
use slot_values::Resolved;
use std::alloc::{AllocError, Global};

/// These slots, and behind them those that an expression reads.
#[cycle(slots)]
fn push_slots(e: &Resolved, slots: &mut Vec<u32>) -> Result<(), AllocError>
    ensures { OnOk result (slots.new.items ≡ slots.old.items ++ slots_read (resolved_view e.now)) }
{
    match e {
        Resolved::Known(_) => Ok(()),
        Resolved::Slot(slot) => {
            slots.push(*slot)?;
            Ok(())
        }
        Resolved::Not(a) | Resolved::Minus(_, a) => push_slots(a, slots),
        Resolved::Binary(_, _, a, b) => {
            push_slots(a, slots)?;
            push_slots(b, slots)
        }
        Resolved::If(c, a, b) => {
            push_slots(c, slots)?;
            push_slots(a, slots)?;
            push_slots(b, slots)
        }
        Resolved::Arrow(start, a, b) => {
            slots.push(*start)?;
            push_slots(a, slots)?;
            push_slots(b, slots)
        }
        Resolved::When(slot, _, a) => {
            slots.push(*slot)?;
            push_slots(a, slots)
        }
        Resolved::Merge(slot, a, b) => {
            slots.push(*slot)?;
            push_slots(a, slots)?;
            push_slots(b, slots)
        }
        Resolved::Latest(condition, beat, output, held) => {
            push_slots(condition, slots)?;
            slots.push(*beat)?;
            slots.push(*output)?;
            slots.push(*held)?;
            Ok(())
        }
    }
}

/// These slots, and behind them those whose values of the same instant a source reads.
///
/// # Errors
///
/// Want of memory.
pub fn push_reads_now(source: &Source, slots: &mut Vec<u32>) -> Result<(), AllocError>
    ensures { OnOk result (slots.new.items ≡ slots.old.items ++ reads_now (source_view source.now)) }
{
    match source {
        Source::Runs(clock) | Source::Listed(clock) => {
            slots.push(clock.slot)?;
            Ok(())
        }
        Source::RunsWhile(clock, e) | Source::Given(clock, e) => {
            slots.push(clock.slot)?;
            push_slots(e, slots)
        }
        Source::Same(slot) => {
            slots.push(*slot)?;
            Ok(())
        }
        Source::Argument(beat, clock, e) => {
            slots.push(*beat)?;
            slots.push(clock.slot)?;
            push_slots(e, slots)
        }
        Source::Always
        | Source::Remembered(_, _)
        | Source::Starting(_)
        | Source::Held { .. }
        | Source::Unread => Ok(()),
    }
}

/// The slots whose values of the same instant a source reads.
///
/// # Errors
///
/// Want of memory.
pub fn reads_now(alloc: Global, source: &Source) -> Result<Vec<u32>, AllocError>
    ensures { IfOk result (λ v. v.items ≡ reads_now (source_view source.now)) }
{
    let mut slots = Vec::new(alloc);
    push_reads_now(source, &mut slots)?;
    Ok(slots)
}
