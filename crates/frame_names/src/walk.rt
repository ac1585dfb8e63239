//! The frame at the end of a way of calls, and the numbers of its names.

ghost use Rattle.std.specs.Prelude.{◌≡◌, ◌+◌, map};
ghost use Rattle.lus_limits.specs.Summaries.{cut};
ghost use Rattle.frame_names.specs.Known.{own_cells_of};
ghost use Rattle.frame_names.specs.Views.{known_view};
ghost use Rattle.frame_names.specs.Walk.{analysed, call_of, called, number_in, number_there, stands_after, walked};

use crate::tables::{Callee, Known};
use lus_limits::Way;

/// One past the greatest number of variables. Greater numbers are cut there.
const BOUND: usize = 20_001;

/// Where a frame stands: the number of its declaration, that of its first slot, and how it runs.
#[derive(Clone, Copy)]
pub(crate) struct Standing {
    pub(crate) place: usize,
    pub(crate) base: usize,
    pub(crate) way: Way,
}

/// A sum, cut.
fn sum(left: usize, right: usize) -> usize
    ensures { result ≡ cut (left + right) }
{
    let sum = left.saturating_add(right);
    if sum < BOUND { sum } else { BOUND }
}

/// How many cells a frame that runs so has of its own.
fn own_cells_of(known: &Known, way: Way) -> usize
    ensures { result ≡ own_cells_of way (known_view known.now) }
{
    match way {
        Way::Import => known.imported,
        Way::Plain | Way::Condition => known.own,
    }
}

/// The call with this number, counted from 1.
fn call_of(calls: &[Callee], number: u32) -> Option<Callee>
    ensures { result ≡ call_of calls.now number }
{
    match number.checked_sub(1) {
        Some(place) => calls.get(place as usize).copied(),
        None => None,
    }
}

/// Where the frame of a call stands.
fn called(standing: Standing, known: &Known, callee: Callee) -> Standing
    ensures { result ≡ called standing (known_view known.now) callee }
{
    let behind = sum(own_cells_of(known, standing.way), callee.frame);
    Standing {
        place: callee.place,
        base: sum(standing.base, behind),
        way: callee.way,
    }
}

/// Where the frame of the call with this number stands, if there is such a call.
fn stands_after(all: &[Known], standing: Standing, number: u32) -> Option<Standing>
    ensures { result ≡ stands_after (map known_view all.now) standing number }
{
    match all.get(standing.place) {
        Some(known) => match call_of(&known.calls, number) {
            Some(callee) => Some(called(standing, known, callee)),
            None => None,
        },
        None => None,
    }
}

/// Where the frame at the end of a way of calls stands, where the way leads to one.
pub(crate) fn walked(all: &[Known], root: usize, way: &[u32]) -> Option<Standing>
    ensures { result ≡ walked (map known_view all.now) way.now (analysed root) }
{
    let mut standing = Standing {
        place: root,
        base: 0,
        way: Way::Plain,
    };
    for number in way {
        match stands_after(all, standing, *number) {
            Some(inner) => standing = inner,
            None => return None,
        }
    }
    Some(standing)
}

/// The number of a name of the declaration in a frame that stands there.
fn number_in(known: &Known, standing: Standing, name: &str) -> Option<u32>
    ensures { result ≡ number_in (known_view known.now) standing name.now }
{
    match known.names.number(name) {
        Some(number) => Some(sum(standing.base, sum(1, number)) as u32),
        None => None,
    }
}

/// The number of a name in the frame that stands there, if it is one of its declaration's streams.
pub(crate) fn number_there(all: &[Known], standing: Standing, name: &str) -> Option<u32>
    ensures { result ≡ number_there (map known_view all.now) name.now standing }
{
    match all.get(standing.place) {
        Some(known) => number_in(known, standing, name),
        None => None,
    }
}
