//! Where frames are: each by the calls on the way to it.

ghost use Rattle.std.specs.Prelude.{◌≡◌, Some, false, map, option_map, slice_get};
ghost use Rattle.sys_frames.specs.Walked.{HasRoomWithin};
ghost use Rattle.sys_tables.specs.Numbers.{CallHasRoom};
ghost use Rattle.sys_tables.specs.Views.{linked_view, table_view, tables_view};
ghost use Rattle.sys_texts.specs.Sights.{counted_from_one};
ghost use Rattle.part_resolver.specs.Seats.{HasRoomAt, call_seat, called, nowhere, seat_of, seat_on};

use frame_sources::imports::{Tables, table_at};
use lus_limits::Way;
use sys_tables::numbers::{behind_own, frame_base, way_of};
use sys_tables::table::{Linked, Table};

/// Where a frame is: the place of its declaration among those of the program, how it runs, the number of its beat,
/// and how deep calls are nested in it at most.
#[derive(Clone, Copy)]
pub(crate) struct Seat {
    pub(crate) depth: usize,
    pub(crate) place: usize,
    pub(crate) way: Way,
    pub(crate) base: u32,
}

/// That of no frame.
#[tactic(auto, using(lus_meaning::proofs::Exists::length_mapped))]
fn nowhere(tables: Tables<'_, '_>) -> Seat
    ensures { result ≡ nowhere (tables_view tables.entry.all.now) tables.entry.missing }
{
    Seat {
        depth: 0,
        place: tables.all.len(),
        way: Way::Plain,
        base: tables.missing,
    }
}

/// The call at that place.
#[tactic(auto, using(sys_texts::proofs::Gotten::seen_at))]
fn placed<'a, 's>(calls: &'s [Linked<'a>], place: usize) -> Option<&'s Linked<'a>>
    ensures { option_map (λ c. linked_view c.now) result ≡ slice_get (map linked_view calls.now) place }
{
    calls.get(place)
}

/// The call with that number.
fn numbered<'a, 's>(table: &'s Table<'a>, number: u32) -> Option<&'s Linked<'a>>
    ensures { option_map (λ c. linked_view c.now) result ≡ counted_from_one (table_view table.now).calls number }
{
    if number == 0 {
        return None;
    }
    placed(&table.calls, number as usize - 1)
}

/// Where the frame of a call is, where the calls of its caller stand from there on, and are nested in it no deeper than
/// `depth`.
fn seat_of(tables: Tables<'_, '_>, depth: usize, from: u32, linked: &Linked<'_>) -> Seat
    requires room { CallHasRoom from (linked_view linked.now) }
    ensures { result ≡ seat_of (tables_view tables.entry.all.now) tables.entry.missing depth from
        (linked_view linked.now) }
{
    if depth == 0 {
        return nowhere(tables);
    }
    Seat {
        depth: depth - 1,
        place: linked.place,
        way: way_of(linked.site.manner),
        base: frame_base(from, linked),
    }
}

/// Where the frame of the call with that number is, of a frame of that declaration.
#[tactic(auto, using(crate::proofs::Rooms::room_of_call))]
fn called(tables: Tables<'_, '_>, seat: Seat, table: &Table<'_>, number: u32) -> Seat
    requires room { HasRoomWithin seat.depth (tables_view tables.all.now) (table_view table.now) seat.way seat.base }
    ensures { result ≡ called (tables_view tables.entry.all.now) tables.entry.missing seat
        (Some (table_view table.now)) number }
{
    let from = behind_own(table, seat.way, seat.base);
    match numbered(table, number) {
        Some(linked) => seat_of(tables, seat.depth, from, linked),
        None => nowhere(tables),
    }
}

/// Where the frame of the call with that number is; nowhere where there is no such call.
fn call_seat(tables: Tables<'_, '_>, seat: Seat, number: u32) -> Seat
    requires room { HasRoomAt (tables_view tables.all.now) seat }
    ensures { result ≡ call_seat (tables_view tables.entry.all.now) tables.entry.missing seat number }
{
    match table_at(tables.all, seat.place) {
        Some(table) => called(tables, seat, table, number),
        None => nowhere(tables),
    }
}

/// Where the frame at the end of a way of calls is.
pub(crate) fn seat_on(tables: Tables<'_, '_>, root: Seat, way: &[u32]) -> Seat
    requires room { HasRoomAt (tables_view tables.all.now) root }
    ensures { result ≡ seat_on (tables_view tables.entry.all.now) tables.entry.missing root way.now }
{
    let mut seat = root;
    for number in way {
        seat = call_seat(tables, seat, *number);
    }
    seat
}
