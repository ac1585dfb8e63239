//! The names of a frame: where their variables stand, and their clocks.

ghost use Rattle.std.specs.Prelude.{◌≡◌, ◌<◌, ◌≤◌, ◌^◌, [], IfOk, OnOk, length};
ghost use Rattle.std.specs.Option.{option_or};
ghost use Rattle.lus_tree.specs.Tree.{Name};
ghost use Rattle.lus_meaning.specs.Scene.{variables};
ghost use Rattle.lus_streams.specs.Clocks.{clock_seen};
ghost use Rattle.lus_streams.specs.Owner.{owner_view};
ghost use Rattle.lus_streams.specs.Streams.{names_of, params_view};
ghost use Rattle.path_traces.specs.Indexed.{IsIndex, by_name, place_from};
ghost use Rattle.path_traces.specs.Numbered.{clock_in, name_number, place_in};

use crate::free::streams_of;
use crate::index::{note, place_or};
use indexmap::IndexMap;
use lus_streams::clock::{Clock, declared};
use lus_streams::owner::Owner;
use lus_tree::Param;
use std::alloc::{AllocError, Global};

/// The streams of a declaration, in the order of its frame, and the place of the first of each name.
#[derive(Drop)]
pub(crate) struct Names<'a> {
    pub(crate) params: Vec<&'a Param>,
    places: IndexMap<&'a str, usize>,
    ghost indexed: { IsIndex places (names_of (params_view params.items)) },
}

/// Notes the place of the first of each name.
fn note_all<'a>(
    places: &mut IndexMap<&'a str, usize>,
    params: &[&'a Param],
) -> Result<(), AllocError>
    ensures { OnOk result ((x : Name) → by_name places.new x
        ≡ option_or (by_name places.old x) (place_from 0 (names_of (params_view params.now)) x)) }
{
    let mut place = 0;
    for param in params {
        note(places, &param.name.text, place)?;
        place += 1;
    }
    Ok(())
}

/// The place of the first of each name.
fn index_of<'a>(alloc: Global, params: &[&'a Param]) -> Result<IndexMap<&'a str, usize>, AllocError>
    ensures { IfOk result (λ m. IsIndex m (names_of (params_view params.now))) }
{
    let mut places = IndexMap::new(alloc);
    note_all(&mut places, params)?;
    Ok(places)
}

/// The names of a declaration.
pub(crate) fn names_of(alloc: Global, owner: Owner<'_>) -> Result<Names<'_>, AllocError>
    ensures { IfOk result (λ n. params_view n.params.items ≡ variables (owner_view owner.entry)) }
{
    let params = streams_of(alloc, owner)?;
    let places = index_of(alloc, &params)?;
    Ok(Names { params, places })
}

/// No names.
pub(crate) fn no_names(alloc: Global) -> Names<'static>
    ensures { params_view result.params.items ≡ [] }
{
    Names {
        params: Vec::new(alloc),
        places: IndexMap::new(alloc),
    }
}

/// How many stand before the first of that name.
fn place_in(names: &Names<'_>, name: &str) -> usize
    ensures place { result ≡ place_in (params_view names.now.params.items) name.now }
    ensures within { result ≤ length names.now.params.items }
{
    place_or(&names.places, name, names.params.len())
}

/// The number of a name's variable, in a frame whose beat has the number `base`.
pub(crate) fn name_number(names: &Names<'_>, base: usize, name: &str) -> usize
    requires { base < 2 ^ 32 }
    ensures { result ≡ name_number (params_view names.now.params.items) base name.now }
{
    base + 1 + place_in(names, name)
}

/// The clock of a name; the base clock where there is none of that name.
pub(crate) fn clock_in<'a>(names: &Names<'a>, name: &str) -> Clock<'a>
    ensures { clock_seen result ≡ clock_in (params_view names.now.params.items) name.now }
{
    match names.params.get(place_in(names, name)) {
        Some(param) => declared(&param.clock),
        None => Clock::Base,
    }
}
