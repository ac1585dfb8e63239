//! What may be listed, by places.

ghost use Rattle.std.specs.Prelude.{◌≡◌, ℕ, List, Some, None, cond, map, option_map, IfOk, OnOk};
ghost use Rattle.std.specs.Option.{option_or};
ghost use Rattle.lus_meaning.specs.Trace.{Subject as Subjects};
ghost use Rattle.lus_meaning.specs.Fits.{same_place};
ghost use Rattle.trace_fits.specs.Slotted.{slotted_at};
ghost use Rattle.trace_fits.specs.Views.{found_at, slotted_seen, slotted_view, subject_view};

use crate::permitted::Listable;
use crate::place::Place;
use indexmap::IndexMap;
use std::alloc::{AllocError, Global};

/// What may be listed, and a table of the first of each place.
#[derive(Drop)]
pub struct ListableTable<'a> {
    pub listables: &'a [Listable<'a>],
    places: IndexMap<Place<'a>, &'a Listable<'a>>,
    ghost first: { (path : List ℕ) (x : Subjects) → found_at places path x
        ≡ slotted_at (map slotted_view listables.now) path x },
}

impl<'a> ListableTable<'a> {
    /// The table of these.
    ///
    /// # Errors
    ///
    /// Want of memory.
    pub fn new(alloc: Global, listables: &'a [Listable<'a>]) -> Result<Self, AllocError>
        ensures { IfOk result (λ t. t.listables.now ≡ listables.now) }
    {
        let places = by_places(alloc, listables)?;
        Ok(ListableTable { listables, places })
    }

    /// The first of that place. A look-up hashes the place once and walks nothing.
    pub fn find(&self, place: Place<'_>) -> Option<&'a Listable<'a>>
        ensures { slotted_seen result
            ≡ slotted_at (map slotted_view self.now.listables.now) place.entry.way.now
            (subject_view place.entry.what) }
    {
        self.places.get(&place).copied()
    }
}

/// The place of what may be listed.
fn place_of<'a>(listable: &'a Listable<'a>) -> Place<'a>
    ensures way { result.way.now ≡ listable.now.path.items }
    ensures what { result.what ≡ listable.now.what }
{
    Place {
        way: &listable.path,
        what: listable.what,
    }
}

/// Notes what may be listed at a place that has none yet.
fn note<'a>(
    places: &mut IndexMap<Place<'a>, &'a Listable<'a>>,
    place: Place<'a>,
    listable: &'a Listable<'a>,
) -> Result<(), AllocError>
    ensures { OnOk result ((path : List ℕ) (x : Subjects) → found_at places.new path x
        ≡ option_or (found_at places.old path x)
        (cond (same_place place.entry.way.now (subject_view place.entry.what) path x)
        (Some (slotted_view listable.now)) None)) }
{
    if !places.contains_key(&place) {
        places.insert(place, listable)?;
    }
    Ok(())
}

/// A table of the first of each place.
fn by_places<'a>(
    alloc: Global,
    listables: &'a [Listable<'a>],
) -> Result<IndexMap<Place<'a>, &'a Listable<'a>>, AllocError>
    ensures { IfOk result (λ m. (path : List ℕ) (x : Subjects) → found_at m path x
        ≡ slotted_at (map slotted_view listables.now) path x) }
{
    let mut places = IndexMap::new(alloc);
    for listable in listables {
        note(&mut places, place_of(listable), listable)?;
    }
    Ok(places)
}
