//! The places that the parts of an instant need, and what these need, by numbers.

ghost use Rattle.std.specs.Prelude.{◌≡◌, [], IfOk, OnOk, option_map};
ghost use Rattle.lus_meaning.specs.Trace.{same_numbers};
ghost use Rattle.evaluation_parts.specs.PartViews.{filled, parts_view, place_view, places_view};
ghost use Rattle.evaluation_parts.specs.Views.{frame_instance};
ghost use Rattle.evaluation_order.specs.Numbered.{HaveAll, met, met_all, met_parts, number_of, numbers_of, same_name, same_place};

use crate::next::next_of;
use evaluation_parts::frame::Frame;
use evaluation_parts::part::{Needed, Part};
use std::alloc::{AllocError, Global};

/// Whether the two are one way.
pub(crate) fn is_same_way(first: &[u32], second: &[u32]) -> bool
    ensures { result ≡ same_numbers first.now second.now }
{
    match first {
        [] => second.is_empty(),
        [call, first @ ..] => match second {
            [] => false,
            [other, second @ ..] => *call == *other && is_same_way(first, second),
        },
    }
}

/// Whether the two are one name, or both none.
fn is_same_name(first: Option<&str>, second: Option<&str>) -> bool
    ensures { result ≡ same_name (option_map (λ x. x.now) first.entry) (option_map (λ x. x.now) second.entry) }
{
    match (first, second) {
        (None, None) => true,
        (Some(name), Some(other)) => name == other,
        (None, Some(_)) | (Some(_), None) => false,
    }
}

/// Whether the two are one place.
fn is_same(first: &Needed<'_>, second: &Needed<'_>) -> bool
    ensures { result ≡ same_place (place_view first.now) (place_view second.now) }
{
    is_same_way(&first.way, &second.way) && is_same_name(first.name, second.name)
}

/// The number of the first that is this place.
pub(crate) fn number_of(places: &[Needed<'_>], place: &Needed<'_>) -> Option<usize>
    ensures { result ≡ number_of (places_view places.now) (place_view place.now) }
{
    let mut number = 0;
    for known in places {
        if is_same(place, known) {
            return Some(number);
        }
        number += 1;
    }
    None
}

/// The numbers of those that have one.
pub(crate) fn numbers_of(
    alloc: Global,
    places: &[Needed<'_>],
    more: &[Needed<'_>],
) -> Result<Vec<usize>, AllocError>
    ensures { IfOk result (λ v. v.items ≡ numbers_of (places_view places.now) (places_view more.now)) }
{
    let mut numbers = Vec::new(alloc);
    for place in more {
        if let Some(number) = number_of(places, place) {
            numbers.push(number)?;
        }
    }
    Ok(numbers)
}

/// An equal one.
fn copied<'a>(alloc: Global, place: &Needed<'a>) -> Result<Needed<'a>, AllocError>
    ensures { IfOk result (λ p. place_view p ≡ place_view place.now) }
{
    Ok(Needed {
        way: Vec::from_slice(alloc, &place.way)?,
        name: place.name,
    })
}

/// The places, and behind them this one, where it is new.
fn meet<'a>(
    alloc: Global,
    places: &mut Vec<Needed<'a>>,
    place: &Needed<'a>,
) -> Result<(), AllocError>
    ensures { OnOk result (places_view places.new.items ≡ met (places_view places.old.items) (place_view place.now)) }
{
    match number_of(places, place) {
        Some(_) => Ok(()),
        None => {
            places.push(copied(alloc, place)?)?;
            Ok(())
        }
    }
}

/// The places, and behind them those that are new.
fn meet_all<'a>(
    alloc: Global,
    places: &mut Vec<Needed<'a>>,
    more: &[Needed<'a>],
) -> Result<(), AllocError>
    ensures { OnOk result (places_view places.new.items
        ≡ met_all (places_view places.old.items) (places_view more.now)) }
{
    for place in more {
        meet(alloc, places, place)?;
    }
    Ok(())
}

/// The places, and behind them those that are new of what a part needs.
fn meet_part<'a>(
    alloc: Global,
    places: &mut Vec<Needed<'a>>,
    part: &Part<'a>,
) -> Result<(), AllocError>
    ensures { OnOk result (places_view places.new.items
        ≡ met_all (places_view places.old.items) (filled [] part.now).needs) }
{
    match &part.whole.needs {
        Some(needs) => meet_all(alloc, places, needs.as_slice()),
        None => Ok(()),
    }
}

/// The places, and behind them those that are new of what these parts need.
fn meet_parts<'a>(
    alloc: Global,
    places: &mut Vec<Needed<'a>>,
    parts: &[Part<'a>],
) -> Result<(), AllocError>
    ensures { OnOk result (places_view places.new.items
        ≡ met_parts (places_view places.old.items) (parts_view parts.now)) }
{
    for part in parts {
        meet_part(alloc, places, part)?;
    }
    Ok(())
}

/// All that these parts need, and what these places need.
///
/// # Errors
///
/// Want of memory.
pub(crate) fn places_of<'a>(
    alloc: Global,
    frame: Frame<'a, '_>,
    parts: &[Part<'a>],
) -> Result<Vec<Needed<'a>>, AllocError>
    ensures { IfOk result (λ v. HaveAll (frame_instance frame.entry) (parts_view parts.now) (places_view v.items)) }
{
    let mut places = Vec::new(alloc);
    meet_parts(alloc, &mut places, parts)?;
    let mut turn = 0;
    while turn < places.len() {
        let more = next_of(alloc, frame, &places[turn])?;
        meet_all(alloc, &mut places, &more)?;
        turn += 1;
    }
    Ok(places)
}
