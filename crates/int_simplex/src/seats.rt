//! For each column its place in the basis.

ghost use Rattle.std.specs.Prelude.{ℕ, List, ◌≡◌, ◌<◌, IfOk, MatchOption, All, Contains, Some, None, length, replicate, slice_get, slice_set};
ghost use Rattle.int_simplex.specs.Seating.{AreSeats};

use std::alloc::{AllocError, Global};

// No column is in the basis.
fn no_seats(alloc: Global, columns: u32) -> Result<Vec<Option<usize>>, AllocError>
    ensures { IfOk result (λ v. v.items ≡ replicate columns None) }
{
    let mut seats = Vec::new(alloc);
    for _column in 0..columns {
        seats.push(None)?;
    }
    Ok(seats)
}

// The places of the columns in this basis.
pub(crate) fn seated(
    alloc: Global,
    columns: u32,
    basis: &[u32],
) -> Result<Vec<Option<usize>>, AllocError>
    requires { All (λ c. c < columns) basis.now }
    ensures { IfOk result (λ v. AreSeats columns basis.now v.items) }
{
    let mut seats = no_seats(alloc, columns)?;
    for k in 0..basis.len() {
        seats[basis[k] as usize] = Some(k);
    }
    Ok(seats)
}

// The column's place in the basis.
pub(crate) fn seat_of(seats: &[Option<usize>], column: u32) -> Option<usize>
    ensures { (n : ℕ) (basis : List ℕ) → AreSeats n basis seats.now
        → MatchOption result (Contains basis column → ⊥) (λ k. slice_get basis k ≡ Some column) }
{
    let c = column as usize;
    if c < seats.len() { seats[c] } else { None }
}

// One column leaves its place in the basis to another one.
pub(crate) fn reseat(seats: &mut Vec<Option<usize>>, at: usize, leaving: u32, entering: u32)
    requires leaving { leaving < length seats.old.items }
    requires entering { entering < length seats.old.items }
    ensures { seats.new.items ≡ slice_set (slice_set seats.old.items leaving None) entering (Some at) }
{
    seats[leaving as usize] = None;
    seats[entering as usize] = Some(at);
}
