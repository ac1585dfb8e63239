//! For each column the places of the rows that hold it.

ghost use Rattle.std.specs.Prelude.{ℕ, List, ◌≡◌, ◌≢◌, ◌<◌, IfOk, MatchOption, Contains, length, map, slice_get, Some};
ghost use lib.IntN.{ℤ};
ghost use Rattle.proof_steps.specs.View.{row_view};
ghost use Rattle.int_simplex.specs.Sparse.{IsSparse};
ghost use Rattle.int_simplex.specs.Holding.{lists_of, holders, IsHeld, IsOnly, IsPut, IsTaken, IsNoted, AreEmpty, AreListed};

use crate::crossing::{column_at, lesser, number_at, place_after};
use std::alloc::{AllocError, Global};

fn place_of(list: &[usize], k: usize) -> Option<usize>
    ensures { MatchOption result (Contains list.now k → ⊥) (λ at. slice_get list.now at ≡ Some k) }
{
    for at in 0..list.len() {
        if list[at] == k {
            return Some(at);
        }
    }
    None
}

// Puts the place k behind the column's list.
fn put(lists: &mut Vec<Vec<usize>>, column: usize, k: usize) -> Result<(), AllocError>
    requires { column < length lists.old.items }
    ensures { IfOk result (λ _. IsPut column k (lists_of lists.old.items) (lists_of lists.new.items)) }
{
    match lists[column].push(k) {
        Ok(()) => Ok(()),
        Err(_) => Err(AllocError),
    }
}

// Takes the place k out of the column's list; the last one comes to stand there.
fn take_out(lists: &mut Vec<Vec<usize>>, column: usize, k: usize)
    requires { column < length lists.old.items }
    ensures { IsTaken column k (lists_of lists.old.items) (lists_of lists.new.items) }
{
    if let Some(at) = place_of(&lists[column], k) {
        let _place = lists[column].swap_remove(at);
    }
}

// The row at the place k has now one number in the column, and had another one.
fn note(
    lists: &mut Vec<Vec<usize>>,
    column: usize,
    k: usize,
    was: i128,
    is: i128,
) -> Result<(), AllocError>
    requires { column < length lists.old.items }
    ensures { IfOk result (λ _. IsNoted column k was is (lists_of lists.old.items) (lists_of lists.new.items)) }
{
    if is == 0 {
        take_out(lists, column, k);
        return Ok(());
    }
    if was == 0 {
        return put(lists, column, k);
    }
    Ok(())
}

// The row at the place k is now the new one, and was the old one.
pub(crate) fn relist(
    columns: u32,
    lists: &mut Vec<Vec<usize>>,
    k: usize,
    old: &[(u32, i128)],
    new: &[(u32, i128)],
) -> Result<(), AllocError>
    requires old { IsSparse columns old.now }
    requires new { IsSparse columns new.now }
    requires count { length lists.old.items ≡ columns }
    requires held { IsHeld (lists_of lists.old.items) k old.now }
    ensures only { IfOk result (λ _. IsOnly k (lists_of lists.old.items) (lists_of lists.new.items)) }
    ensures held { IfOk result (λ _. IsHeld (lists_of lists.new.items) k new.now) }
{
    let mut i = 0;
    let mut j = 0;
    let mut next = 0;
    while next < columns {
        let column = lesser(column_at(old, i, columns), column_at(new, j, columns));
        if column >= columns {
            return Ok(());
        }
        let was = number_at(old, i, column);
        let is = number_at(new, j, column);
        note(lists, column as usize, k, was, is)?;
        i = place_after(old, i, column);
        j = place_after(new, j, column);
        next = column + 1;
    }
    Ok(())
}

// No row holds any column.
fn no_lists(alloc: Global, columns: u32) -> Result<Vec<Vec<usize>>, AllocError>
    ensures { IfOk result (λ v. AreEmpty columns (lists_of v.items)) }
{
    let mut lists = Vec::new(alloc);
    for _column in 0..columns {
        lists.push(Vec::new(alloc))?;
    }
    Ok(lists)
}

// The lists of these rows.
pub(crate) fn listed(
    alloc: Global,
    columns: u32,
    rows: &[Vec<(u32, i128)>],
) -> Result<Vec<Vec<usize>>, AllocError>
    requires { (k : ℕ) (r : List (ℕ × ℤ)) → slice_get (map row_view rows.now) k ≡ Some r → IsSparse columns r }
    ensures { IfOk result (λ v. AreListed columns (map row_view rows.now) (lists_of v.items)) }
{
    let mut lists = no_lists(alloc, columns)?;
    for k in 0..rows.len() {
        relist(columns, &mut lists, k, &[], &rows[k])?;
    }
    Ok(lists)
}
