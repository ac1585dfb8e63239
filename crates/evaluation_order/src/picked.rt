//! Parts in another order.

ghost use Rattle.std.specs.Prelude.{◌≡◌, ◌++◌, [], IfOk, OnOk, option_map, option_to_list, slice_get};
ghost use Rattle.lus_evaluation.specs.Frame.{picked};
ghost use Rattle.evaluation_parts.specs.PartViews.{filled, needed_in, parts_view};

use evaluation_parts::part::{Part, Whole};
use std::alloc::{AllocError, Global};

/// The same whole, shared.
fn shared<'a>(whole: &Whole<'a>) -> Result<Whole<'a>, AllocError>
    ensures { IfOk result (λ w. needed_in [] w ≡ needed_in [] whole.now) }
{
    match &whole.needs {
        Some(needs) => Ok(Whole {
            needs: Some(needs.clone()?),
        }),
        None => Ok(Whole { needs: None }),
    }
}

/// An equal part.
fn copied<'a>(alloc: Global, part: &Part<'a>) -> Result<Part<'a>, AllocError>
    ensures { IfOk result (λ p. filled [] p ≡ filled [] part.now) }
{
    let way = Vec::from_slice(alloc, &part.way)?;
    let whole = shared(&part.whole)?;
    Ok(Part {
        way,
        clock: part.clock,
        expression: part.expression,
        whole,
        gives: part.gives,
    })
}

/// The part of that number.
fn part_at<'a, 'p>(parts: &'p [Part<'a>], number: usize) -> Option<&'p Part<'a>>
    ensures { option_map (λ p. filled [] p.now) result ≡ slice_get (parts_view parts.now) number }
{
    parts.get(number)
}

/// The parts, and behind them an equal one, where there is one.
fn push_there<'a>(
    alloc: Global,
    all: &mut Vec<Part<'a>>,
    part: Option<&Part<'a>>,
) -> Result<(), AllocError>
    ensures { OnOk result (parts_view all.new.items
        ≡ parts_view all.old.items ++ option_to_list (option_map (λ p. filled [] p.now) part.entry)) }
{
    if let Some(part) = part {
        all.push(copied(alloc, part)?)?;
    }
    Ok(())
}

/// The parts, and behind them the one of that number, where there is one.
fn push_picked<'a>(
    alloc: Global,
    all: &mut Vec<Part<'a>>,
    parts: &[Part<'a>],
    number: usize,
) -> Result<(), AllocError>
    ensures { OnOk result (parts_view all.new.items
        ≡ parts_view all.old.items ++ option_to_list (slice_get (parts_view parts.now) number)) }
{
    push_there(alloc, all, part_at(parts, number))
}

/// The parts of these numbers.
///
/// # Errors
///
/// Want of memory.
pub(crate) fn picked<'a>(
    alloc: Global,
    order: &[usize],
    parts: &[Part<'a>],
) -> Result<Vec<Part<'a>>, AllocError>
    ensures { IfOk result (λ v. parts_view v.items ≡ picked order.now (parts_view parts.now)) }
{
    let mut all = Vec::with_capacity(alloc, order.len())?;
    for number in order {
        push_picked(alloc, &mut all, parts, *number)?;
    }
    Ok(all)
}
