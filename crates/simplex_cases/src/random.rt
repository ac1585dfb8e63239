ghost use Rattle.std.specs.Prelude.{◌≡◌, true, IfOk, IfSome};

use crate::rows::{number_at, rows_of};
use anyhow::Result;
use int_cuts::{CutAnswer, cut_of, split_of};
use int_simplex::{Checkup, Tableau};
use proof_steps::Atom;
use std::alloc::Global;

/// The next number of a linear congruence, after Knuth: from -4 to 4.
pub fn next(state: &mut u64) -> i128 {
    *state = state
        .wrapping_mul(6_364_136_223_846_793_005)
        .wrapping_add(1_442_695_040_888_963_407);
    ((*state >> 33) % 9) as i128 - 4
}

/// Two rows over x and y, which are from -2 to 2, and a bound of each row's column: the four
/// coefficients, a lower bound of the first row and an upper one of the second.
fn random_numbers(alloc: Global, state: &mut u64) -> Result<Vec<i128>> {
    let mut numbers = Vec::new(alloc);
    for _ in 0..6 {
        numbers.push(next(state))?;
    }
    Ok(numbers)
}

fn row_at(numbers: &[i128], place: usize, x: i128, y: i128) -> i128 {
    let left = number_at(numbers, place).wrapping_mul(x);
    left.wrapping_add(number_at(numbers, place.wrapping_add(1)).wrapping_mul(y))
}

fn is_met(numbers: &[i128], x: i128, y: i128) -> bool {
    row_at(numbers, 0, x, y) >= number_at(numbers, 4)
        && row_at(numbers, 2, x, y) <= number_at(numbers, 5)
}

fn is_cut_off(atom: &Atom, x: i128, y: i128) -> bool {
    let mut sum: i128 = 0;
    for t in atom.terms.as_slice() {
        let (column, a) = *t;
        let value = if column == 0 { x } else { y };
        sum = sum.wrapping_add(a.wrapping_mul(value));
    }
    sum > atom.bound
}

/// The points from -2 to 2, row by row.
fn point(k: u32) -> (i128, i128) {
    ((k / 5) as i128 - 2, (k % 5) as i128 - 2)
}

/// How many points meet the bounds.
fn points(numbers: &[i128]) -> u32 {
    let mut count: u32 = 0;
    for k in 0..25 {
        let (x, y) = point(k);
        if is_met(numbers, x, y) {
            count = count.saturating_add(1);
        }
    }
    count
}

/// Whether the atom takes none of them away.
fn keeps_points(numbers: &[i128], atom: &Atom) -> bool {
    for k in 0..25 {
        let (x, y) = point(k);
        if is_met(numbers, x, y) && is_cut_off(atom, x, y) {
            return false;
        }
    }
    true
}

/// The tableau with one more bound, where it has the column.
pub fn held(
    alloc: Global,
    tableau: Tableau,
    upper: bool,
    column: u32,
    limit: i128,
) -> Result<Tableau>
    requires { tableau.usable ≡ true }
    ensures { IfOk result (λ t. t.usable ≡ true) }
{
    let mut tableau = tableau;
    if column < tableau.columns() {
        tableau.assert_bound(alloc, column, upper, limit, column)?;
    }
    Ok(tableau)
}

fn system(alloc: Global, numbers: &[i128]) -> Result<Tableau>
    ensures { IfOk result (λ t. t.usable ≡ true) }
{
    let rows = rows_of(alloc, 2, 2, numbers)?;
    let tableau = Tableau::new(alloc, &rows, 4)?;
    let tableau = held(alloc, tableau, false, 0, -2)?;
    let tableau = held(alloc, tableau, true, 0, 2)?;
    let tableau = held(alloc, tableau, false, 1, -2)?;
    let tableau = held(alloc, tableau, true, 1, 2)?;
    let tableau = held(alloc, tableau, false, 2, number_at(numbers, 4))?;
    held(alloc, tableau, true, 3, number_at(numbers, 5))
}

/// Whether what fits is a point, or the cut of it takes none away.
fn is_right(alloc: Global, tableau: &Tableau, numbers: &[i128]) -> Result<bool>
    requires { tableau.now.usable ≡ true }
{
    if split_of(tableau).is_none() {
        return Ok(is_met(
            numbers,
            tableau_value(tableau, 0),
            tableau_value(tableau, 1),
        ));
    }
    match cut_of(alloc, tableau)? {
        CutAnswer::Cut(cut) => Ok(keeps_points(numbers, &cut.atom)),
        CutAnswer::Loose(_) => Ok(true),
        _ => Ok(false),
    }
}

fn tableau_value(tableau: &Tableau, column: u32) -> i128
    requires { tableau.now.usable ≡ true }
{
    if column < tableau.columns() {
        let (top, _) = tableau.value(column);
        return top;
    }
    0
}

fn agrees(alloc: Global, numbers: &[i128]) -> Result<bool> {
    let mut tableau = system(alloc, numbers)?;
    match tableau.check(alloc, 1000)? {
        Checkup::Fits => is_right(alloc, &tableau, numbers),
        Checkup::Refuted(_) => Ok(points(numbers) == 0),
        _ => Ok(false),
    }
}

/// How many of so many random systems are answered as their points say.
pub fn random_systems(alloc: Global, count: u32) -> Result<u32> {
    let mut state = 1;
    let mut right: u32 = 0;
    for _ in 0..count {
        let numbers = random_numbers(alloc, &mut state)?;
        if agrees(alloc, &numbers)? {
            right = right.saturating_add(1);
        }
    }
    Ok(right)
}
