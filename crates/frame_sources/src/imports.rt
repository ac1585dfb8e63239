//! The modes of the contracts of frames.

ghost use Rattle.std.specs.Prelude.{◌≡◌, IfOk, map, option_map, slice_get};
ghost use Rattle.std.specs.List.{AllByRecursion};
ghost use Rattle.sys_frames.specs.Walked.{CallsHaveRoom, HasRoomWithin, IfThere, OfCall};
ghost use Rattle.sys_tables.specs.Numbers.{CallHasRoom, frame_base};
ghost use Rattle.sys_tables.specs.Views.{linked_view, table_view, tables_view};
ghost use Rattle.sys_texts.specs.Views.{sight_view};
ghost use Rattle.frame_sources.specs.Views.{all_asked_view, each_asked_view};
ghost use Rattle.frame_sources.specs.Walked.{called_mode, called_modes, modes_below, modes_or_none, modes_seen, modes_within};

use crate::contracts::contract_modes;
use crate::modes::Asked;
use lus_limits::Way;
use std::alloc::{AllocError, Global};
use sys_conditions::occurrences::Manner;
use sys_tables::numbers::{behind_own, frame_base};
use sys_tables::sight::sight;
use sys_tables::table::{Linked, Table};
use sys_texts::sight::Sight;

/// The tables of a program's declarations, and the number that stands for what isn't there.
#[derive(Clone, Copy)]
pub struct Tables<'a, 's> {
    pub alloc: Global,
    pub all: &'s [Table<'a>],
    pub missing: u32,
}

/// The table of that place.
#[tactic(auto, using(sys_texts::proofs::Gotten::seen_at))]
pub fn table_at<'a, 's>(all: &'s [Table<'a>], place: usize) -> Option<&'s Table<'a>>
    ensures { option_map (λ t. table_view t.now) result ≡ slice_get (tables_view all.now) place }
{
    all.get(place)
}

/// The modes of a frame that is seen so, whose calls stand from there on, with calls nested no deeper than `depth`.
///
/// # Errors
///
/// Want of memory.
#[cycle(modes)]
pub fn modes_seen<'a>(
    tables: Tables<'a, '_>,
    depth: usize,
    table: &Table<'a>,
    sight: &Sight<'a>,
    from: u32,
) -> Result<Vec<Asked<'a>>, AllocError>
    requires room { AllByRecursion (CallHasRoom from) (table_view table.now).calls }
    requires below { CallsHaveRoom depth (tables_view tables.all.now) from (table_view table.now).calls }
    ensures { IfOk result (λ v. all_asked_view v.items ≡ modes_seen depth (tables_view tables.entry.all.now)
        tables.entry.missing (table_view table.now) (sight_view sight.now) from) }
{
    let called = modes_below(tables, depth, from, &table.calls)?;
    contract_modes(tables.alloc, sight, &called, table.owner.contract())
}

/// The modes of calls that stand from there on, with others nested in them no deeper than `depth`; at 0 there are none.
#[cycle(modes)]
fn modes_below<'a>(
    tables: Tables<'a, '_>,
    depth: usize,
    from: u32,
    calls: &[Linked<'a>],
) -> Result<Vec<Vec<Asked<'a>>>, AllocError>
    requires room { AllByRecursion (CallHasRoom from) (map linked_view calls.now) }
    requires below { CallsHaveRoom depth (tables_view tables.all.now) from (map linked_view calls.now) }
    ensures { IfOk result (λ v. each_asked_view v.items ≡ modes_below depth (tables_view tables.entry.all.now)
        tables.entry.missing from (map linked_view calls.now)) }
{
    if depth == 0 {
        return Ok(Vec::new(tables.alloc));
    }
    called_modes(tables, depth - 1, from, calls)
}

/// The modes of calls.
#[cycle(modes)]
fn called_modes<'a>(
    tables: Tables<'a, '_>,
    depth: usize,
    from: u32,
    calls: &[Linked<'a>],
) -> Result<Vec<Vec<Asked<'a>>>, AllocError>
    requires room { AllByRecursion (CallHasRoom from) (map linked_view calls.now) }
    requires below { AllByRecursion (OfCall (HasRoomWithin depth (tables_view tables.all.now))
        (tables_view tables.all.now) from) (map linked_view calls.now) }
    ensures { IfOk result (λ v. each_asked_view v.items ≡ called_modes
        (modes_within depth (tables_view tables.entry.all.now) tables.entry.missing)
        (tables_view tables.entry.all.now) from (map linked_view calls.now)) }
{
    let mut all = Vec::new(tables.alloc);
    for call in calls {
        let modes = called_mode(tables, depth, from, call)?;
        all.push(modes)?;
    }
    Ok(all)
}

/// The modes of a call: of an import those of its frame.
#[cycle(modes)]
fn called_mode<'a>(
    tables: Tables<'a, '_>,
    depth: usize,
    from: u32,
    call: &Linked<'a>,
) -> Result<Vec<Asked<'a>>, AllocError>
    requires room { CallHasRoom from (linked_view call.now) }
    requires below { OfCall (HasRoomWithin depth (tables_view tables.all.now)) (tables_view tables.all.now) from
        (linked_view call.now) }
    ensures { IfOk result (λ v. all_asked_view v.items ≡ called_mode
        (modes_within depth (tables_view tables.entry.all.now) tables.entry.missing)
        (tables_view tables.entry.all.now) (linked_view call.now).place (frame_base from (linked_view call.now))
        (linked_view call.now).site.manner) }
{
    match call.site.manner {
        Manner::Import(_) => {
            let base = frame_base(from, call);
            modes_or_none(tables, depth, call.place, Way::Import, base)
        }
        Manner::Plain | Manner::While(_) => Ok(Vec::new(tables.alloc)),
    }
}

/// The modes of a frame of the declaration of that place; none where there is none.
#[cycle(modes)]
fn modes_or_none<'a>(
    tables: Tables<'a, '_>,
    depth: usize,
    place: usize,
    way: Way,
    base: u32,
) -> Result<Vec<Asked<'a>>, AllocError>
    requires below { IfThere (HasRoomWithin depth (tables_view tables.all.now))
        (slice_get (tables_view tables.all.now) place) way base }
    ensures { IfOk result (λ v. all_asked_view v.items ≡ modes_or_none
        (modes_within depth (tables_view tables.entry.all.now) tables.entry.missing)
        (slice_get (tables_view tables.entry.all.now) place) way base) }
{
    match table_at(tables.all, place) {
        Some(table) => modes_within(tables, depth, table, way, base),
        None => Ok(Vec::new(tables.alloc)),
    }
}

/// The modes of a frame of a declaration that runs so and has its slots from there on, with calls nested no deeper than
/// `depth`.
#[cycle(modes)]
fn modes_within<'a>(
    tables: Tables<'a, '_>,
    depth: usize,
    table: &Table<'a>,
    way: Way,
    base: u32,
) -> Result<Vec<Asked<'a>>, AllocError>
    requires room { HasRoomWithin depth (tables_view tables.all.now) (table_view table.now) way base }
    ensures { IfOk result (λ v. all_asked_view v.items ≡ modes_within depth (tables_view tables.entry.all.now)
        tables.entry.missing (table_view table.now) way base) }
{
    let sight = sight(tables.alloc, table, way, base, tables.missing)?;
    modes_seen(tables, depth, table, &sight, behind_own(table, way, base))
}
