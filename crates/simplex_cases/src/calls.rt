ghost use Rattle.std.specs.Prelude.{◌≡◌, ◌≤◌, true, IfOk, IfSome};

use crate::answer::{cutting, entries, parts, past, splitting, terms, told, values};
use crate::rows::{number_at, rows_of};
use crate::systems::{chain, dense};
use anyhow::Result;
use int_simplex::{BoundFault, Checkup, Tableau};
use std::alloc::{AllocError, Global};

fn small(n: i128) -> u32 {
    if n < 0 || n > 4_294_967_295 {
        return 4_294_967_295;
    }
    n as u32
}

fn made(alloc: Global, numbers: &[i128]) -> Result<(Option<Tableau>, String)>
    ensures { IfOk result (λ r. IfSome r.0 (λ t. t.usable ≡ true)) }
{
    let variables = small(number_at(numbers, 0)).clamp(1, 1000);
    let rest = match numbers.get(1..) {
        Some(rest) => rest,
        None => &[],
    };
    let count = small((rest.len() as u64 / variables as u64) as i128).min(1000);
    let rows = rows_of(alloc, variables, count, rest)?;
    let tableau = Tableau::new(alloc, &rows, variables + count)?;
    let answer = told(alloc, "made", &[tableau.columns() as i128])?;
    Ok((Some(tableau), answer))
}

// Rows with two entries each: that of a variable, and its own.
fn wide(alloc: Global, numbers: &[i128]) -> Result<(Option<Tableau>, String)>
    ensures { IfOk result (λ r. IfSome r.0 (λ t. t.usable ≡ true)) }
{
    let variables = small(number_at(numbers, 0)).clamp(1, 1000);
    let mut ones = Vec::new(alloc);
    for j in 0..variables {
        for c in 0..variables {
            ones.push(if c == j { 1 } else { 0 })?;
        }
    }
    let rows = rows_of(alloc, variables, variables, &ones)?;
    let tableau = Tableau::new(alloc, &rows, variables + variables)?;
    let answer = told(alloc, "made", &[tableau.columns() as i128])?;
    Ok((Some(tableau), answer))
}

fn asserted(
    alloc: Global,
    tableau: Tableau,
    upper: bool,
    numbers: &[i128],
) -> Result<(Option<Tableau>, String)>
    requires { tableau.usable ≡ true }
    ensures { IfOk result (λ r. IfSome r.0 (λ t. t.usable ≡ true)) }
{
    let mut tableau = tableau;
    let column = small(number_at(numbers, 0));
    if column >= tableau.columns() {
        return Ok((Some(tableau), told(alloc, "no column", &[])?));
    }
    let limit = number_at(numbers, 1);
    let literal = small(number_at(numbers, 2));
    match tableau.assert_bound(alloc, column, upper, limit, literal) {
        Ok(()) => {
            let mark = tableau.mark();
            Ok((Some(tableau), told(alloc, "stands", &[mark as i128])?))
        }
        Err(BoundFault::Crosses(farkas)) => {
            let shown = parts(alloc, &farkas.parts)?;
            Ok((Some(tableau), told(alloc, "crosses", &shown)?))
        }
        Err(BoundFault::Memory) => Err(AllocError.into()),
    }
}

fn checked(alloc: Global, tableau: Tableau, pivots: u64) -> Result<(Option<Tableau>, String)>
    requires { tableau.usable ≡ true }
    ensures { IfOk result (λ r. IfSome r.0 (λ t. t.usable ≡ true)) }
{
    let mut tableau = tableau;
    match tableau.check(alloc, pivots)? {
        Checkup::Fits => {
            let shown = values(alloc, &tableau)?;
            Ok((Some(tableau), told(alloc, "fits", &shown)?))
        }
        Checkup::Refuted(farkas) => {
            let shown = parts(alloc, &farkas.parts)?;
            Ok((Some(tableau), told(alloc, "refuted", &shown)?))
        }
        Checkup::Pivots(start) => Ok((None, told(alloc, "pivots", &[start.pivots as i128])?)),
        Checkup::Past(step) => Ok((None, told(alloc, "past", &past(alloc, &step)?)?)),
    }
}

fn ended(alloc: Global, tableau: Tableau, pivots: u64) -> Result<(Option<Tableau>, String)>
    requires { tableau.usable ≡ true }
    ensures { IfOk result (λ r. IfSome r.0 (λ t. t.usable ≡ true)) }
{
    let mut tableau = tableau;
    match tableau.check(alloc, pivots)? {
        Checkup::Fits => Ok((Some(tableau), told(alloc, "fits", &[])?)),
        Checkup::Refuted(_) => Ok((Some(tableau), told(alloc, "refuted", &[])?)),
        Checkup::Pivots(_) => Ok((None, told(alloc, "pivots", &[])?)),
        Checkup::Past(_) => Ok((None, told(alloc, "past", &[])?)),
    }
}

fn system(alloc: Global, word: &str, numbers: &[i128]) -> Result<(Option<Tableau>, String)>
    ensures { IfOk result (λ r. IfSome r.0 (λ t. t.usable ≡ true)) }
{
    let columns = small(number_at(numbers, 0));
    let tableau = if word == "chain" {
        chain(alloc, columns)?
    } else {
        dense(alloc, columns, small(number_at(numbers, 1)) as u64)?
    };
    let answer = told(alloc, "made", &[tableau.columns() as i128])?;
    Ok((Some(tableau), answer))
}

fn undone(alloc: Global, tableau: Tableau, mark: u64) -> Result<(Option<Tableau>, String)>
    requires { tableau.usable ≡ true }
    ensures { IfOk result (λ r. IfSome r.0 (λ t. t.usable ≡ true)) }
{
    let mut tableau = tableau;
    if mark > tableau.mark() {
        return Ok((Some(tableau), told(alloc, "no mark", &[])?));
    }
    tableau.undo_to(mark);
    Ok((Some(tableau), told(alloc, "undone", &[])?))
}

fn asked(alloc: Global, tableau: &Tableau, word: &str, numbers: &[i128]) -> Result<String>
    requires { tableau.now.usable ≡ true }
{
    let column = small(number_at(numbers, 0));
    if word == "zeros" {
        return entries(alloc, tableau);
    }
    if word == "split" {
        return splitting(alloc, tableau);
    }
    if word == "cut" {
        return cutting(alloc, tableau);
    }
    if column >= tableau.columns() {
        return told(alloc, "no column", &[]);
    }
    if word == "row" {
        return match tableau.row(column) {
            Some(row) => told(alloc, "row", &terms(alloc, row)?),
            None => told(alloc, "outside", &[]),
        };
    }
    match tableau.bound(column, number_at(numbers, 1) == 1) {
        Some((limit, literal)) => told(alloc, "bound", &[limit, literal as i128]),
        None => told(alloc, "none", &[]),
    }
}

fn words(alloc: Global, line: &str) -> Result<Vec<i128>> {
    let mut numbers = Vec::new(alloc);
    let mut words = line.split_whitespace();
    words.next();
    for word in words {
        let n: i128 = word.parse()?;
        numbers.push(n)?;
    }
    Ok(numbers)
}

/// What the line's call leaves of the tableau, and its answer.
pub fn call(
    alloc: Global,
    tableau: Option<Tableau>,
    line: &str,
) -> Result<(Option<Tableau>, String)>
    requires { IfSome tableau (λ t. t.usable ≡ true) }
    ensures { IfOk result (λ r. IfSome r.0 (λ t. t.usable ≡ true)) }
{
    let word = match line.split_whitespace().next() {
        Some(word) => word,
        None => "",
    };
    let numbers = words(alloc, line)?;
    if word == "new" {
        return made(alloc, &numbers);
    }
    if word == "wide" {
        return wide(alloc, &numbers);
    }
    if word == "chain" || word == "dense" {
        return system(alloc, word, &numbers);
    }
    let Some(tableau) = tableau else {
        return Ok((None, told(alloc, "no tableau", &[])?));
    };
    if word == "low" {
        return asserted(alloc, tableau, false, &numbers);
    }
    if word == "up" {
        return asserted(alloc, tableau, true, &numbers);
    }
    if word == "check" {
        return checked(alloc, tableau, small(number_at(&numbers, 0)) as u64);
    }
    if word == "ends" {
        return ended(alloc, tableau, small(number_at(&numbers, 0)) as u64);
    }
    if word == "undo" {
        return undone(alloc, tableau, small(number_at(&numbers, 0)) as u64);
    }
    let answer = asked(alloc, &tableau, word, &numbers)?;
    Ok((Some(tableau), answer))
}
