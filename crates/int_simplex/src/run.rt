ghost use Rattle.std.specs.Prelude.{ℕ, List, ◌≡◌, ◌<◌, ◌≤◌, IfOk, IfErr, length, map, Option, true};
ghost use lib.IntN.{ℤ};
ghost use lib.Signed.{◌<ℤ◌};
ghost use Rattle.proof_steps.specs.View.{row_view};
ghost use Rattle.proof_steps.specs.StopView.{start_view};
ghost use Rattle.proof_steps.specs.Pivots.{raised, lowered};
ghost use Rattle.int_simplex.specs.State.{Standing, plain, outside_from};
ghost use Rattle.int_simplex.specs.Choosing.{bare};
ghost use Rattle.int_simplex.specs.Inner.{standing};
ghost use Rattle.int_simplex.specs.Holding.{lists_of, AreListed};
ghost use Rattle.int_simplex.specs.Seating.{AreSeats};
ghost use Rattle.int_simplex.specs.Marks.{AreOwnValues};
ghost use Rattle.int_simplex.specs.Running.{IsKept, IsReady, AreTables, AreFirst, IsStopped, IsWalked, IsAnswer, ArePlacesOf, AreLimitsOf, at as at_place};

use crate::answers::Farkas;
use crate::moving::{Move, next_move, turn};
use crate::seats::seat_of;
use crate::stale::refresh;
use crate::table::Asserted;
use crate::trouble::Stopped;
use proof_steps::Start;
use std::alloc::{AllocError, Global};

// How a run of pivots ended.
#[derive(Drop)]
pub(crate) enum Walked {
    Fits,
    Refuted(Farkas),
    Long,
}

fn plain_bounds(alloc: Global, trail: &[Asserted]) -> Result<Vec<(u32, bool, i128)>, AllocError>
    ensures { IfOk result (λ v. v.items ≡ map plain (map standing trail.now)) }
{
    let mut bounds = Vec::new(alloc);
    for a in trail {
        bounds.push((a.column, a.upper, a.limit))?;
    }
    Ok(bounds)
}

fn outside_places(
    alloc: Global,
    seats: &[Option<usize>],
    values: &[(i128, i128)],
) -> Result<Vec<(u32, i128)>, AllocError>
    requires { length values.now ≤ 4294967295 }
    ensures { IfOk result (λ v. (n : ℕ) (basis : List ℕ) → AreSeats n basis seats.now
        → v.items ≡ outside_from 0 values.now basis) }
{
    let mut places = Vec::new(alloc);
    for c in 0..values.len() {
        match seat_of(seats, c as u32) {
            None => places.push((c as u32, values[c].0))?,
            Some(_) => {}
        }
    }
    Ok(places)
}

// Where a check begins.
pub(crate) fn start_of(
    alloc: Global,
    basis: &[u32],
    seats: &[Option<usize>],
    trail: &[Asserted],
    values: &[(i128, i128)],
    pivots: u64,
) -> Result<Start, AllocError>
    requires few { length values.now ≤ 4294967295 }
    requires seats { AreSeats (length values.now) basis.now seats.now }
    ensures { IfOk result (λ s. start_view s ≡ record {
      basis = basis.now;
      bounds = map plain (map standing trail.now);
      places = outside_from 0 values.now
          basis.now;
      pivots = pivots;
    }) }
{
    let bounds = plain_bounds(alloc, trail)?;
    let places = outside_places(alloc, seats, values)?;
    Ok(Start {
        basis: Vec::from_slice(alloc, basis)?,
        bounds,
        places,
        pivots,
    })
}

// Moved into the limits.
fn clamped(z: i128, low: Option<(i128, u32)>, high: Option<(i128, u32)>) -> i128
    ensures { result ≡ lowered (bare high) (raised (bare low) z) }
{
    let raised = match low {
        Some((l, _)) if z < l => l,
        _ => z,
    };
    match high {
        Some((u, _)) if u < raised => u,
        _ => raised,
    }
}

// Where the columns stand as a run begins.
pub(crate) fn first_places(
    alloc: Global,
    seats: &[Option<usize>],
    values: &[(i128, i128)],
    lowers: &[Option<(i128, u32)>],
    uppers: &[Option<(i128, u32)>],
) -> Result<Vec<i128>, AllocError>
    requires few { length values.now ≤ 4294967295 }
    requires lowers { length lowers.now ≡ length values.now }
    requires uppers { length uppers.now ≡ length values.now }
    ensures { IfOk result (λ v. (n : ℕ) (basis : List ℕ) → AreSeats n basis seats.now
        → AreFirst basis values.now lowers.now uppers.now v.items) }
{
    let mut places = Vec::new(alloc);
    for c in 0..values.len() {
        let z = match seat_of(seats, c as u32) {
            None => values[c].0,
            Some(_) => 0,
        };
        places.push(clamped(z, lowers[c], uppers[c]))?;
    }
    Ok(places)
}

// Pivots by Bland's rule, until the values meet all limits, or no column can enter, or the budget
// is spent.
pub(crate) fn walk(
    alloc: Global,
    columns: u32,
    given: &[Vec<(u32, i128)>],
    lowers: &[Option<(i128, u32)>],
    uppers: &[Option<(i128, u32)>],
    basis: &mut Vec<u32>,
    seats: &mut Vec<Option<usize>>,
    rows: &mut Vec<Vec<(u32, i128)>>,
    lists: &mut Vec<Vec<usize>>,
    values: &mut Vec<(i128, i128)>,
    places: &mut Vec<i128>,
    pivots: u64,
) -> Result<Walked, Stopped>
    requires ready { IsReady (map row_view given.now) (length lowers.now) basis.old.items
        (map row_view rows.old.items) }
    requires listed { AreListed columns (map row_view rows.old.items) (lists_of lists.old.items) }
    requires seats { AreSeats columns basis.old.items seats.old.items }
    requires places { length places.old.items ≡ length lowers.now }
    requires width { length values.old.items ≡ length lowers.now }
    requires own { AreOwnValues basis.old.items (map row_view rows.old.items) values.old.items }
    requires uppers { length uppers.now ≡ length lowers.now }
    requires columns { columns ≡ length lowers.now }
    ensures found { IfOk result (λ w. (bounds : List Standing) → AreTables
        (length lowers.now) bounds lowers.now uppers.now → IsWalked (map row_view given.now)
        (length lowers.now) bounds pivots (at_place basis.old.items places.old.items) basis.new.items
        places.new.items w) }
    ensures kept { IfOk result (λ w. IsAnswer w → IsKept (map row_view given.now)
        (length lowers.now) basis.new.items (map row_view rows.new.items) places.new.items values.new.items) }
    ensures listed { IfOk result (λ w. IsAnswer w → AreListed columns (map row_view rows.new.items)
        (lists_of lists.new.items)) }
    ensures seats { IfOk result (λ w. IsAnswer w → AreSeats columns basis.new.items seats.new.items) }
    ensures past { IfErr result (λ e. (numbers : List ℤ) → ArePlacesOf numbers places.old.items
        → AreLimitsOf numbers lowers.now uppers.now → IsStopped (map row_view given.now)
        (length lowers.now) numbers e) }
{
    refresh(alloc, given, basis, seats, rows, lists, places, values)?;
    let mut left = pivots;
    loop {
        match next_move(alloc, given, lowers, uppers, basis, rows, values, places)? {
            Move::Fits => return Ok(Walked::Fits),
            Move::Refuted(farkas) => return Ok(Walked::Refuted(farkas)),
            Move::Pivot(out, column) => {
                if left == 0 {
                    return Ok(Walked::Long);
                }
                left -= 1;
                turn(
                    alloc, columns, given, basis, seats, rows, lists, values, places, out, column,
                )?;
            }
        }
    }
}
