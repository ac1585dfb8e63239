//! The parts that give a name before all others.

ghost use Rattle.std.specs.Prelude.{◌≡◌, ◌++◌, [], IfOk, OnOk, map, pred};
ghost use Rattle.std.specs.List.{position_from};
ghost use Rattle.lus_tree.specs.Tree.{text_of};
ghost use Rattle.lus_tree.specs.View.{word_view};
ghost use Rattle.lus_meaning.specs.Depends.{named_in};
ghost use Rattle.lus_evaluation.specs.Evaluation.{gives_name, place_named};
ghost use Rattle.evaluation_parts.specs.PartViews.{filled, given, parts_view, place_view, places_view};
ghost use Rattle.evaluation_order.specs.GiverViews.{givers_view};
ghost use Rattle.evaluation_order.specs.Givers.{giver_of, givers_from, givers_of, is_first};

use crate::own_needs::is_among;
use crate::places::{is_same_way, number_of};
use evaluation_parts::part::{Gives, Needed, Part};
use lus_tree::PlacedName;
use std::alloc::{AllocError, Global};

/// A part that is the first to give a name: its number, the calls on the way to its frame, and the number of the place
/// that it gives.
#[derive(Clone, Copy)]
pub(crate) struct Giver<'p> {
    pub(crate) part: usize,
    pub(crate) way: &'p [u32],
    pub(crate) place: usize,
}

/// Whether a name is among those that are given.
fn is_given(name: &str, gives: Gives<'_>) -> bool
    ensures { result ≡ named_in name.now (given gives.entry) }
{
    match gives {
        Gives::Nothing => false,
        Gives::Name(word) => name == word.text.as_str(),
        Gives::Names(words) => is_among(name, words),
    }
}

/// Whether a part gives a name of the frame at the end of a way of calls.
fn is_giving(way: &[u32], name: &str, part: &Part<'_>) -> bool
    ensures { result ≡ gives_name way.now name.now (filled [] part.now) }
{
    is_same_way(way, &part.way) && is_given(name, part.gives)
}

/// The number of the first part that gives it.
fn first_giving(parts: &[Part<'_>], way: &[u32], name: &str) -> Option<usize>
    ensures { result ≡ position_from (gives_name way.now name.now) 0 (parts_view parts.now) }
{
    let mut number = 0;
    for part in parts {
        if is_giving(way, name, part) {
            return Some(number);
        }
        number += 1;
    }
    None
}

/// Whether the part of that number is the first that gives it.
fn is_first(parts: &[Part<'_>], number: usize, way: &[u32], name: &str) -> bool
    ensures { result ≡ is_first (parts_view parts.now) number way.now name.now }
{
    match first_giving(parts, way, name) {
        Some(first) => first == number,
        None => false,
    }
}

/// The number counted from 0 of what is counted from 1.
fn from_zero(number: u32) -> u32
    ensures { result ≡ pred number }
{
    if number == 0 { 0 } else { number - 1 }
}

/// The calls of a way, counted from 0.
fn from_zero_each(alloc: Global, way: &[u32]) -> Result<Vec<u32>, AllocError>
    ensures { IfOk result (λ v. v.items ≡ map pred way.now) }
{
    let mut places = Vec::with_capacity(alloc, way.len())?;
    for number in way {
        places.push(from_zero(*number))?;
    }
    Ok(places)
}

/// The place of a name of the frame at the end of a way of calls.
fn place_named<'a>(alloc: Global, way: &[u32], name: &'a str) -> Result<Needed<'a>, AllocError>
    ensures { IfOk result (λ p. place_view p ≡ place_named way.now name.now) }
{
    Ok(Needed {
        way: from_zero_each(alloc, way)?,
        name: Some(name),
    })
}

/// The givers, and behind them the part of that number, where it is the first that gives the name and this is needed.
fn push_giver<'p>(
    alloc: Global,
    givers: &mut Vec<Giver<'p>>,
    places: &[Needed<'_>],
    parts: &[Part<'_>],
    number: usize,
    way: &'p [u32],
    name: &str,
) -> Result<(), AllocError>
    ensures { OnOk result (givers_view givers.new.items ≡ givers_view givers.old.items
        ++ giver_of (places_view places.now) (parts_view parts.now) number way.now name.now) }
{
    if is_first(parts, number, way, name) {
        let place = place_named(alloc, way, name)?;
        if let Some(place) = number_of(places, &place) {
            givers.push(Giver {
                part: number,
                way,
                place,
            })?;
        }
    }
    Ok(())
}

/// The same of each of these names.
fn push_each<'p>(
    alloc: Global,
    givers: &mut Vec<Giver<'p>>,
    places: &[Needed<'_>],
    parts: &[Part<'_>],
    number: usize,
    way: &'p [u32],
    words: &[PlacedName],
) -> Result<(), AllocError>
    ensures { OnOk result (givers_view givers.new.items ≡ givers_view givers.old.items
        ++ givers_of (places_view places.now) (parts_view parts.now) number way.now
        (map text_of (map word_view words.now))) }
{
    for word in words {
        push_giver(alloc, givers, places, parts, number, way, &word.text)?;
    }
    Ok(())
}

/// The same of the names that a part gives.
fn push_part<'p>(
    alloc: Global,
    givers: &mut Vec<Giver<'p>>,
    places: &[Needed<'_>],
    parts: &[Part<'_>],
    number: usize,
    part: &'p Part<'_>,
) -> Result<(), AllocError>
    ensures { OnOk result (givers_view givers.new.items ≡ givers_view givers.old.items
        ++ givers_of (places_view places.now) (parts_view parts.now) number (filled [] part.now).way
        (filled [] part.now).gives) }
{
    match part.gives {
        Gives::Nothing => Ok(()),
        Gives::Name(word) => push_giver(
            alloc, givers, places, parts, number, &part.way, &word.text,
        ),
        Gives::Names(words) => push_each(alloc, givers, places, parts, number, &part.way, words),
    }
}

/// The parts that are the first to give a name, each with the number of the place that it gives, where it has one.
///
/// # Errors
///
/// Want of memory.
pub(crate) fn givers_of<'p>(
    alloc: Global,
    places: &[Needed<'_>],
    parts: &'p [Part<'_>],
) -> Result<Vec<Giver<'p>>, AllocError>
    ensures { IfOk result (λ v. givers_view v.items
        ≡ givers_from (places_view places.now) (parts_view parts.now) 0 (parts_view parts.now)) }
{
    let mut givers = Vec::new(alloc);
    let mut number = 0;
    for part in parts {
        push_part(alloc, &mut givers, places, parts, number, part)?;
        number += 1;
    }
    Ok(givers)
}
