//! The bounds that atoms mean by their values, asserted to a tableau.

ghost use Rattle.std.specs.Prelude.{◌≡◌, ◌<◌, ◌-◌, ◌^◌, true, All, length, IfOk};
ghost use Rattle.smt_solver.specs.Asserting.{signed_bound, IsAssertedBy, AreAssertedBy, HasColumnBelow};
ghost use Rattle.smt_solver.specs.Near.{IsNear};

use crate::fault::SolveFault;
use crate::numbers::meanings::Meaning;
use int_simplex::{BoundFault, Tableau};
use proof_steps::Literal;
use sat_core::Search;
use std::alloc::Global;

/// The side and the limit of what the atom or its opposite means.
pub fn signed(meaning: Meaning, sign: bool) -> (bool, i128)
    requires near { IsNear meaning }
    ensures side { result.0 ≡ (signed_bound sign meaning).upper }
    ensures limit { result.1 ≡ (signed_bound sign meaning).limit }
{
    if sign {
        (meaning.upper, meaning.limit)
    } else if meaning.upper {
        (false, meaning.limit + 1)
    } else {
        (true, meaning.limit - 1)
    }
}

// Asserts what the numbered atom means by its value, or tells the number of an atom whose bound it crosses.
fn assert_atom(
    alloc: Global,
    search: &Search,
    tableau: &mut Tableau,
    meaning: Meaning,
    number: u32,
) -> Result<Option<u32>, SolveFault>
    requires usable { tableau.old.usable ≡ true }
    requires in_range { HasColumnBelow tableau.old.columns meaning }
    requires near { IsNear meaning }
    ensures { IfOk result (λ c. IsAssertedBy search.now.trail tableau.old tableau.new number meaning c) }
{
    let sign = match search.value(Literal::Atom(number, true)) {
        Some(sign) => sign,
        None => return Ok(None),
    };
    let (upper, limit) = signed(meaning, sign);
    match tableau.assert_bound(alloc, meaning.column, upper, limit, number) {
        Ok(()) => Ok(None),
        Err(BoundFault::Crosses(_)) => match tableau.bound(meaning.column, !upper) {
            Some((_, first)) => Ok(Some(first)),
            None => Ok(Some(0)),
        },
        Err(BoundFault::Memory) => Err(SolveFault::Memory),
    }
}

/// In place of all bounds asserts those that atoms mean by their values, in the order of the atoms, or tells
/// the numbers of two whose bounds cross.
pub fn assert_all(
    alloc: Global,
    search: &Search,
    tableau: &mut Tableau,
    meanings: &[Meaning],
) -> Result<Option<(u32, u32)>, SolveFault>
    requires usable { tableau.old.usable ≡ true }
    requires few { length meanings.now < 2 ^ 32 - 1 }
    requires in_range { All (HasColumnBelow tableau.old.columns) meanings.now }
    requires near { All IsNear meanings.now }
    ensures { IfOk result (λ c. AreAssertedBy search.now.trail tableau.old tableau.new meanings.now c) }
{
    tableau.undo_to(0);
    for i in 0..meanings.len() {
        let number = i as u32 + 1;
        if let Some(first) = assert_atom(alloc, search, tableau, meanings[i], number)? {
            return Ok(Some((first, number)));
        }
    }
    Ok(None)
}
