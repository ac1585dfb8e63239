//! The rows whose values are stale as a check begins.

ghost use Rattle.std.specs.Prelude.{ℕ, List, ◌≡◌, ◌≢◌, ◌<◌, ◌≤◌, IfOk, IfErr, [], All, Contains, Some, true, length, map, slice_get, slice_set};
ghost use lib.IntN.{ℤ, pos};
ghost use Rattle.proof_steps.specs.View.{row_view};
ghost use Rattle.int_simplex.specs.State.{places_of};
ghost use Rattle.int_simplex.specs.Valued.{place_at, AreValues, IsValuesPast};
ghost use Rattle.int_simplex.specs.Holding.{lists_of, holders, AreListed};
ghost use Rattle.int_simplex.specs.Seating.{AreSeats};
ghost use Rattle.int_simplex.specs.Running.{IsReady};
ghost use Rattle.int_simplex.specs.Marks.{AreOwnValues, AreMarked, ArePlaced, is_marked};

use crate::seats::seat_of;
use crate::trouble::Stopped;
use crate::values::update_values;
use std::alloc::{AllocError, Global};

// Marks the places in the list.
fn mark(marks: &mut Vec<bool>, list: &[usize])
    requires { All (λ k. k < length marks.old.items) list.now }
    ensures { AreMarked list.now marks.old.items marks.new.items }
{
    for i in 0..list.len() {
        marks[list[i]] = true;
    }
}

// The marked places.
fn marked(alloc: Global, marks: &[bool]) -> Result<Vec<usize>, AllocError>
    ensures within { IfOk result (λ v. All (λ k. k < length marks.now) v.items) }
    ensures all { IfOk result (λ v. (k : ℕ) → is_marked marks.now k ≡ true → Contains v.items k) }
{
    let mut places = Vec::new(alloc);
    for k in 0..marks.len() {
        if marks[k] {
            places.push(k)?;
        }
    }
    Ok(places)
}

// Puts the column at its place, and marks the rows in its list if it moves.
fn put_at(
    values: &mut Vec<(i128, i128)>,
    stale: &mut Vec<bool>,
    list: &[usize],
    column: usize,
    place: i128,
)
    requires column { column < length values.old.items }
    requires list { All (λ k. k < length stale.old.items) list.now }
    ensures values { values.new.items ≡ slice_set values.old.items column (place, pos 1) }
    ensures stays { AreMarked [] stale.old.items stale.new.items }
    ensures moves { places_of values.old.items column ≢ place → AreMarked list.now stale.old.items stale.new.items }
{
    let was = values[column].0;
    values[column] = (place, 1);
    if was != place {
        mark(stale, list);
    }
}

// Puts the columns outside the basis at their places. What comes marks the rows that hold one that moved.
fn placed(
    alloc: Global,
    count: usize,
    seats: &[Option<usize>],
    lists: &[Vec<usize>],
    places: &[i128],
    values: &mut Vec<(i128, i128)>,
) -> Result<Vec<bool>, AllocError>
    requires few { length places.now ≤ 4294967295 }
    requires values { length values.old.items ≡ length places.now }
    requires lists { length lists.now ≡ length places.now }
    requires within { (c k : ℕ) → Contains (holders (lists_of lists.now) c) k → k < count }
    ensures count { IfOk result (λ v. length v.items ≡ count) }
    ensures width { IfOk result (λ _. length values.new.items ≡ length places.now) }
    ensures placed { IfOk result (λ v. (n : ℕ) (basis : List ℕ) → AreSeats n basis seats.now
        → ArePlaced basis (lists_of lists.now) places.now values.old.items values.new.items v.items
        (length places.now)) }
{
    let mut stale = vec![in alloc; false; count]?;
    for c in 0..places.len() {
        match seat_of(seats, c as u32) {
            None => put_at(values, &mut stale, &lists[c], c, places[c]),
            Some(_) => {}
        }
    }
    Ok(stale)
}

// The values after the columns outside the basis went to their places: only rows that hold one that moved are
// computed.
pub(crate) fn refresh(
    alloc: Global,
    given: &[Vec<(u32, i128)>],
    basis: &[u32],
    seats: &[Option<usize>],
    rows: &[Vec<(u32, i128)>],
    lists: &[Vec<usize>],
    places: &[i128],
    values: &mut Vec<(i128, i128)>,
) -> Result<(), Stopped>
    requires few { length places.now ≤ 4294967295 }
    requires ready { IsReady (map row_view given.now) (length places.now) basis.now (map row_view rows.now) }
    requires seats { AreSeats (length places.now) basis.now seats.now }
    requires listed { AreListed (length places.now) (map row_view rows.now) (lists_of lists.now) }
    requires width { length values.old.items ≡ length places.now }
    requires own { AreOwnValues basis.now (map row_view rows.now) values.old.items }
    ensures values { IfOk result (λ _. AreValues basis.now (map row_view rows.now) places.now values.new.items) }
    ensures past { IfErr result (IsValuesPast (map row_view given.now) basis.now (map row_view rows.now)
        (place_at places.now)) }
{
    let stale = placed(alloc, rows.len(), seats, lists, places, values)?;
    let touched = marked(alloc, &stale)?;
    update_values(alloc, given, basis, rows, places, &touched, values)
}
