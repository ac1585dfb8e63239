//! The items of the contracts of frames.

ghost use Rattle.std.specs.Prelude.{◌≡◌, IfOk, map, option_map, slice_get};
ghost use Rattle.sys_contracts.specs.Views.{all_items_view, items_view};
ghost use Rattle.sys_tables.specs.Numbers.{CallHasRoom, frame_base};
ghost use Rattle.sys_tables.specs.Views.{linked_view, table_view, tables_view};
ghost use Rattle.sys_texts.specs.Views.{sight_view};
ghost use Rattle.std.specs.List.{AllByRecursion};
ghost use Rattle.sys_frames.specs.Walked.{CallsHaveRoom, HasRoomWithin, IfThere, OfCall, called_item, called_items, items_below, items_or_none, items_seen, items_within};

use lus_limits::Way;
use std::alloc::{AllocError, Global};
use sys_conditions::occurrences::Manner;
use sys_contracts::items::{Items, no_items};
use sys_contracts::statements::contract_items;
use sys_tables::numbers::{behind_own, frame_base};
use sys_tables::sight::sight;
use sys_tables::table::{Linked, Table};
use sys_texts::sight::Sight;

/// The tables of a program's declarations, and the number that stands for what isn't there.
#[derive(Clone, Copy)]
pub(crate) struct Tables<'a, 's> {
    pub(crate) alloc: Global,
    pub(crate) all: &'s [Table<'a>],
    pub(crate) missing: u32,
}

/// The table of that place.
#[tactic(auto, using(sys_texts::proofs::Gotten::seen_at))]
pub(crate) fn table_at<'a, 's>(all: &'s [Table<'a>], place: usize) -> Option<&'s Table<'a>>
    ensures { option_map (λ t. table_view t.now) result ≡ slice_get (tables_view all.now) place }
{
    all.get(place)
}

/// The items of a frame that is seen so, whose calls stand from there on, with calls nested no deeper than `depth`.
#[cycle(items)]
pub(crate) fn items_seen<'a>(
    tables: Tables<'a, '_>,
    depth: usize,
    table: &Table<'a>,
    sight: &Sight<'a>,
    from: u32,
) -> Result<Items<'a>, AllocError>
    requires room { AllByRecursion (CallHasRoom from) (table_view table.now).calls }
    requires below { CallsHaveRoom depth (tables_view tables.all.now) from (table_view table.now).calls }
    ensures { IfOk result (λ i. items_view i ≡ items_seen depth (tables_view tables.entry.all.now)
        tables.entry.missing (table_view table.now) (sight_view sight.now) from) }
{
    let called = items_below(tables, depth, from, &table.calls)?;
    contract_items(tables.alloc, sight, &called, table.owner.contract())
}

/// The items of calls that stand from there on, with others nested in them no deeper than `depth`; at 0 there are none.
#[cycle(items)]
fn items_below<'a>(
    tables: Tables<'a, '_>,
    depth: usize,
    from: u32,
    calls: &[Linked<'a>],
) -> Result<Vec<Items<'a>>, AllocError>
    requires room { AllByRecursion (CallHasRoom from) (map linked_view calls.now) }
    requires below { CallsHaveRoom depth (tables_view tables.all.now) from (map linked_view calls.now) }
    ensures { IfOk result (λ v. all_items_view v.items ≡ items_below depth (tables_view tables.entry.all.now)
        tables.entry.missing from (map linked_view calls.now)) }
{
    if depth == 0 {
        return Ok(Vec::new(tables.alloc));
    }
    called_items(tables, depth - 1, from, calls)
}

/// The items of calls.
#[cycle(items)]
fn called_items<'a>(
    tables: Tables<'a, '_>,
    depth: usize,
    from: u32,
    calls: &[Linked<'a>],
) -> Result<Vec<Items<'a>>, AllocError>
    requires room { AllByRecursion (CallHasRoom from) (map linked_view calls.now) }
    requires below { AllByRecursion (OfCall (HasRoomWithin depth (tables_view tables.all.now))
        (tables_view tables.all.now) from) (map linked_view calls.now) }
    ensures { IfOk result (λ v. all_items_view v.items ≡ called_items
        (items_within depth (tables_view tables.entry.all.now) tables.entry.missing)
        (tables_view tables.entry.all.now) from (map linked_view calls.now)) }
{
    let mut all = Vec::new(tables.alloc);
    for call in calls {
        let items = called_item(tables, depth, from, call)?;
        all.push(items)?;
    }
    Ok(all)
}

/// The items of a call: of an import those of its frame.
#[cycle(items)]
fn called_item<'a>(
    tables: Tables<'a, '_>,
    depth: usize,
    from: u32,
    call: &Linked<'a>,
) -> Result<Items<'a>, AllocError>
    requires room { CallHasRoom from (linked_view call.now) }
    requires below { OfCall (HasRoomWithin depth (tables_view tables.all.now)) (tables_view tables.all.now) from
        (linked_view call.now) }
    ensures { IfOk result (λ i. items_view i ≡ called_item
        (items_within depth (tables_view tables.entry.all.now) tables.entry.missing)
        (tables_view tables.entry.all.now) (linked_view call.now).place (frame_base from (linked_view call.now))
        (linked_view call.now).site.manner) }
{
    match call.site.manner {
        Manner::Import(_) => {
            let base = frame_base(from, call);
            items_or_none(tables, depth, call.place, Way::Import, base)
        }
        Manner::Plain | Manner::While(_) => Ok(no_items(tables.alloc)),
    }
}

/// The items of a frame of the declaration of that place; none where there is none.
#[cycle(items)]
pub(crate) fn items_or_none<'a>(
    tables: Tables<'a, '_>,
    depth: usize,
    place: usize,
    way: Way,
    base: u32,
) -> Result<Items<'a>, AllocError>
    requires below { IfThere (HasRoomWithin depth (tables_view tables.all.now))
        (slice_get (tables_view tables.all.now) place) way base }
    ensures { IfOk result (λ i. items_view i ≡ items_or_none
        (items_within depth (tables_view tables.entry.all.now) tables.entry.missing)
        (slice_get (tables_view tables.entry.all.now) place) way base) }
{
    match table_at(tables.all, place) {
        Some(table) => items_within(tables, depth, table, way, base),
        None => Ok(no_items(tables.alloc)),
    }
}

/// The items of a frame of a declaration that runs so and has its variables from there on, with calls nested no deeper
/// than `depth`.
#[cycle(items)]
fn items_within<'a>(
    tables: Tables<'a, '_>,
    depth: usize,
    table: &Table<'a>,
    way: Way,
    base: u32,
) -> Result<Items<'a>, AllocError>
    requires room { HasRoomWithin depth (tables_view tables.all.now) (table_view table.now) way base }
    ensures { IfOk result (λ i. items_view i ≡ items_within depth (tables_view tables.entry.all.now)
        tables.entry.missing (table_view table.now) way base) }
{
    let sight = sight(tables.alloc, table, way, base, tables.missing)?;
    items_seen(tables, depth, table, &sight, behind_own(table, way, base))
}
