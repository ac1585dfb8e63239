ghost use Rattle.std.specs.Prelude.{ℕ, ◌≡◌, ◌≢◌, ◌<◌, List, length, map, slice_get, Some, IfOk, IfErr, MatchOption};
ghost use lib.IntN.{ℤ, pos};
ghost use Rattle.proof_steps.specs.View.{row_view};
ghost use Rattle.proof_steps.specs.Rows.{entry};
ghost use Rattle.int_simplex.specs.Sparse.{IsSparse};
ghost use Rattle.int_simplex.specs.Crossing.{IsPivoted};
ghost use Rattle.int_simplex.specs.Holding.{lists_of, holders, AreListed};
ghost use Rattle.int_simplex.specs.Pivoting.{AreTurned, IsNextPast, IsTurnPast, IsTurned, IsTurnedPast};

use crate::crossing::pivoted;
use crate::holders::relist;
use crate::making::entry_in;
use crate::stopping::past_over;
use crate::trouble::{Stopped, Trouble};
use std::alloc::Global;

// The row after a pivot on the entering column; none where it stays.
fn next_row(
    alloc: Global,
    columns: u32,
    entering: u32,
    row: &[(u32, i128)],
    other: &[(u32, i128)],
) -> Result<Option<Vec<(u32, i128)>>, Stopped>
    requires row { IsSparse columns row.now }
    requires other { IsSparse columns other.now }
    ensures made { IfOk result (λ o. MatchOption o (entry row.now entering ≡ pos 0)
        (λ v. (entry row.now entering ≢ pos 0) × IsPivoted columns entering row.now other.now v.items)) }
    ensures crossed { IfErr result (λ _. entry row.now entering ≢ pos 0) }
    ensures past { IfErr result (IsNextPast entering other.now row.now) }
{
    if entry_in(row, entering) == 0 {
        return Ok(None);
    }
    match pivoted(alloc, columns, entering, row, other) {
        Ok(new) => Ok(Some(new)),
        Err(Trouble::Past(past)) => Err(past_over(alloc, row, other, past)),
        Err(Trouble::Memory) => Err(Stopped::Memory),
    }
}

// The row at the place k is turned, unless it is the leaving one.
fn turn_row(
    alloc: Global,
    columns: u32,
    rows: &mut Vec<Vec<(u32, i128)>>,
    lists: &mut Vec<Vec<usize>>,
    at: usize,
    entering: u32,
    other: &[(u32, i128)],
    k: usize,
) -> Result<(), Stopped>
    requires in_range { k < length rows.old.items }
    requires row { (r : List (ℕ × ℤ)) → slice_get (map row_view rows.old.items) k ≡ Some r → IsSparse columns r }
    requires other { IsSparse columns other.now }
    requires listed { AreListed columns (map row_view rows.old.items) (lists_of lists.old.items) }
    ensures made { IfOk result (λ _. IsTurned columns at entering other.now k (map row_view rows.old.items)
        (map row_view rows.new.items)) }
    ensures listed { IfOk result (λ _. AreListed columns (map row_view rows.new.items) (lists_of lists.new.items)) }
    ensures past { IfErr result (IsTurnedPast at entering other.now k (map row_view rows.old.items)) }
{
    if k == at {
        return Ok(());
    }
    match next_row(alloc, columns, entering, &rows[k], other)? {
        Some(new) => {
            relist(columns, lists, k, &rows[k], &new)?;
            rows[k] = new;
            Ok(())
        }
        None => Ok(()),
    }
}

// The rows after a pivot of the row at that place on the entering column, and the places of the rows that held the
// column: no other row is looked at.
pub(crate) fn turn_rows(
    alloc: Global,
    columns: u32,
    rows: &mut Vec<Vec<(u32, i128)>>,
    lists: &mut Vec<Vec<usize>>,
    at: usize,
    entering: u32,
) -> Result<Vec<usize>, Stopped>
    requires at { at < length rows.old.items }
    requires entering { entering < columns }
    requires sparse { (k : ℕ) (r : List (ℕ × ℤ)) → slice_get (map row_view rows.old.items) k ≡ Some r
        → IsSparse columns r }
    requires listed { AreListed columns (map row_view rows.old.items) (lists_of lists.old.items) }
    ensures touched { IfOk result (λ v. v.items ≡ holders (lists_of lists.old.items) entering) }
    ensures made { IfOk result (λ v. (other : List (ℕ × ℤ)) → slice_get (map row_view rows.old.items) at ≡ Some other
        → AreTurned columns at entering other (map row_view rows.old.items) (map row_view rows.new.items) v.items) }
    ensures listed { IfOk result (λ _. AreListed columns (map row_view rows.new.items) (lists_of lists.new.items)) }
    ensures past { IfErr result (IsTurnPast at entering (map row_view rows.old.items)) }
{
    let other = Vec::from_slice(alloc, &rows[at])?;
    let touched = Vec::from_slice(alloc, &lists[entering as usize])?;
    for i in 0..touched.len() {
        turn_row(
            alloc, columns, rows, lists, at, entering, &other, touched[i],
        )?;
    }
    Ok(touched)
}
