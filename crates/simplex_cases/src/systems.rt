//! Systems for the benchmark.

ghost use Rattle.std.specs.Prelude.{◌≡◌, true, IfOk};

use crate::random::{held, next};
use crate::rows::{number_at, rows_of};
use anyhow::Result;
use int_simplex::Tableau;
use std::alloc::Global;

/// The coefficients of x(0), x(1) - x(0), x(2) - x(1) and so on, row by row.
fn differences(alloc: Global, variables: u32) -> Result<Vec<i128>> {
    let mut numbers = Vec::new(alloc);
    for j in 0..variables {
        for c in 0..variables {
            let before = c.wrapping_add(1);
            numbers.push(if c == j {
                1
            } else if before == j {
                -1
            } else {
                0
            })?;
        }
    }
    Ok(numbers)
}

/// Over so many columns, half of them variables, the first of which is at least 1, and each other one at least 1 more
/// than the one before. The last one is at most their number.
pub fn chain(alloc: Global, columns: u32) -> Result<Tableau>
    ensures { IfOk result (λ t. t.usable ≡ true) }
{
    let variables = (columns / 2).clamp(1, 1000);
    let rows = rows_of(alloc, variables, variables, &differences(alloc, variables)?)?;
    let mut tableau = Tableau::new(alloc, &rows, variables + variables)?;
    for j in 0..variables {
        tableau = held(alloc, tableau, false, variables + j, 1)?;
    }
    held(alloc, tableau, true, variables - 1, variables as i128)
}

/// Numbers from `low` to `low + 8`.
fn numbers_from(alloc: Global, state: &mut u64, low: i128, count: u32) -> Result<Vec<i128>> {
    let mut numbers = Vec::new(alloc);
    for _ in 0..count {
        numbers.push(next(state).wrapping_add(4).wrapping_add(low))?;
    }
    Ok(numbers)
}

/// The sum of the coefficients from that place on, each times its number of the point.
fn sum_at(coefficients: &[i128], from: usize, point: &[i128]) -> i128 {
    let mut sum: i128 = 0;
    for k in 0..point.len() {
        let a = number_at(coefficients, from.wrapping_add(k));
        sum = sum.wrapping_add(a.wrapping_mul(point[k]));
    }
    sum
}

/// Over so many columns, three quarters of them variables from 0 to 8: each row has random coefficients from -4 to 4
/// and the value that it has at a random point.
pub fn dense(alloc: Global, columns: u32, seed: u64) -> Result<Tableau>
    ensures { IfOk result (λ t. t.usable ≡ true) }
{
    let count = (columns / 4).clamp(1, 100);
    let variables = count.saturating_mul(3).clamp(1, 300);
    let mut state = seed;
    let coefficients = numbers_from(alloc, &mut state, -4, variables.saturating_mul(count))?;
    let point = numbers_from(alloc, &mut state, 0, variables)?;
    let rows = rows_of(alloc, variables, count, &coefficients)?;
    let mut tableau = Tableau::new(alloc, &rows, variables + count)?;
    for c in 0..variables {
        tableau = held(alloc, tableau, false, c, 0)?;
        tableau = held(alloc, tableau, true, c, 8)?;
    }
    let mut from: usize = 0;
    for j in 0..count {
        let sum = sum_at(&coefficients, from, &point);
        tableau = held(alloc, tableau, false, variables + j, sum)?;
        tableau = held(alloc, tableau, true, variables + j, sum)?;
        from = from.wrapping_add(variables as usize);
    }
    Ok(tableau)
}
