//! The bounds that matter, in a tableau.

ghost use Rattle.std.specs.Prelude.{◌≡◌, true, OnOk, IfOk};

use crate::fault::SolveFault;
use crate::numbers::meanings::Meaning;
use int_simplex::{BoundFault, Tableau};
use proof_steps::Literal;
use sat_core::Search;
use std::alloc::{AllocError, Global};

/// The side and the limit of what the atom or its opposite means.
pub fn side_and_limit(meaning: Meaning, sign: bool) -> (bool, i128) {
    match (sign, meaning.upper) {
        (true, upper) => (upper, meaning.limit),
        (false, true) => (false, meaning.limit.wrapping_add(1)),
        (false, false) => (true, meaning.limit.wrapping_sub(1)),
    }
}

// Asserts a bound, or tells the number of the atom whose bound it crosses.
fn assert_side(
    alloc: Global,
    tableau: &mut Tableau,
    column: u32,
    upper: bool,
    limit: i128,
    number: u32,
) -> Result<Option<u32>, SolveFault>
    requires usable { tableau.old.usable ≡ true }
    ensures usable { OnOk result (tableau.new.usable ≡ true) }
{
    if column >= tableau.columns() {
        return Ok(None);
    }
    match tableau.assert_bound(alloc, column, upper, limit, number) {
        Ok(()) => Ok(None),
        Err(BoundFault::Crosses(_)) => match tableau.bound(column, !upper) {
            Some((_, first)) => Ok(Some(first)),
            None => Ok(None),
        },
        Err(BoundFault::Memory) => Err(SolveFault::Memory),
    }
}

/// Asserts what the numbered atom means by its value, or tells the number of the atom whose bound it crosses.
pub fn assert_number(
    alloc: Global,
    search: &Search,
    tableau: &mut Tableau,
    meanings: &[Meaning],
    number: u32,
) -> Result<Option<u32>, SolveFault>
    requires usable { tableau.old.usable ≡ true }
    ensures usable { OnOk result (tableau.new.usable ≡ true) }
{
    let meaning = match meanings.get((number as usize).wrapping_sub(1)) {
        Some(meaning) => *meaning,
        None => return Ok(None),
    };
    match search.value(Literal::Atom(number, true)) {
        Some(sign) => {
            let (upper, limit) = side_and_limit(meaning, sign);
            assert_side(alloc, tableau, meaning.column, upper, limit, number)
        }
        None => Ok(None),
    }
}

/// In place of all bounds asserts those of the numbered atoms, or tells the numbers of two whose bounds cross.
pub fn assert_picked(
    alloc: Global,
    search: &Search,
    tableau: &mut Tableau,
    meanings: &[Meaning],
    numbers: &[u32],
) -> Result<Option<(u32, u32)>, SolveFault>
    requires usable { tableau.old.usable ≡ true }
    ensures usable { OnOk result (tableau.new.usable ≡ true) }
{
    tableau.undo_to(0);
    for number in numbers {
        if let Some(first) = assert_number(alloc, search, tableau, meanings, *number)? {
            return Ok(Some((first, *number)));
        }
    }
    Ok(None)
}

/// The numbers with those of the atoms after the first `count`.
pub fn push_own(numbers: &mut Vec<u32>, count: usize, all: usize) -> Result<(), AllocError> {
    for place in count..all {
        if let Ok(number) = u32::try_from(place) {
            numbers.push(number.wrapping_add(1))?;
        }
    }
    Ok(())
}
