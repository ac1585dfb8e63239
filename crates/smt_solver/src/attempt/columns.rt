//! What atoms mean over one column for each different sum.

use crate::numbers::meanings::Meaning;
use crate::numbers::order::{divisor, falls, key};
use kind_num::div_floor;
use proof_steps::Atom;
use smallvec::SmallVec;
use std::alloc::{AllocError, Global};

/// The different sums of more than one variable, in the order of their columns, and what the atoms mean over these
/// columns and those of the variables.
#[derive(Drop)]
pub struct Columns {
    pub sums: Vec<Atom>,
    pub meanings: Vec<Meaning>,
}

fn normal_term(term: (u32, i128), divisor: i128, turned: bool) -> (u32, i128) {
    if divisor <= 0 {
        return term;
    }
    let quotient = div_floor(term.1, divisor);
    if turned {
        (term.0, quotient.wrapping_neg())
    } else {
        (term.0, quotient)
    }
}

/// The atom's sum divided by what its coefficients have in common, and turned so that the first is positive. The bound
/// is left out.
pub fn normal_sum(alloc: Global, atom: &Atom) -> Result<Atom, AllocError> {
    let terms = atom.terms.as_slice();
    let divisor = divisor(terms);
    let turned = falls(terms);
    let mut normal = SmallVec::new(alloc);
    for term in terms {
        normal.push(normal_term(*term, divisor, turned))?;
    }
    Ok(Atom {
        terms: normal,
        bound: 0,
    })
}

/// Whether two atoms have the same terms.
pub fn is_same_sum(left: &Atom, right: &Atom) -> bool {
    let left = left.terms.as_slice();
    let right = right.terms.as_slice();
    if left.len() != right.len() {
        return false;
    }
    for (i, term) in left.iter().enumerate() {
        if right.get(i) != Some(term) {
            return false;
        }
    }
    true
}

/// The variable of a sum that is one variable.
pub fn only_variable(sum: &Atom) -> Option<u32> {
    match sum.terms.as_slice() {
        [(x, _)] => Some(*x),
        _ => None,
    }
}

/// What the atom means, where its normal sum has this column.
pub fn meaning_over(atom: &Atom, column: u32) -> Meaning {
    let terms = atom.terms.as_slice();
    let divisor = divisor(terms);
    let most = div_floor(atom.bound, divisor);
    if falls(terms) {
        return Meaning {
            column,
            upper: false,
            limit: most.wrapping_neg(),
            divisor,
        };
    }
    Meaning {
        column,
        upper: true,
        limit: most,
        divisor,
    }
}

// The atoms' keys with their places, so sorted that atoms over one sum stand together.
fn by_sum(alloc: Global, atoms: &[Atom]) -> Result<Vec<(i128, u32)>, AllocError> {
    let mut places = Vec::new(alloc);
    for place in 0..u32::MAX {
        match atoms.get(place as usize) {
            Some(atom) => places.push((key(atom.terms.as_slice()), place))?,
            None => break,
        }
    }
    places.sort_unstable();
    Ok(places)
}

// The column of the sum at this place, where the first one has that column.
fn column_at(first: u32, place: usize) -> u32 {
    match u32::try_from(place) {
        Ok(place) => first.wrapping_add(place),
        Err(_) => u32::MAX,
    }
}

// The column of a sum, where it is one variable or the last of the sums.
fn known_column(sums: &[Atom], first: u32, sum: &Atom) -> Option<u32> {
    if let Some(x) = only_variable(sum) {
        return Some(x);
    }
    match sums.last() {
        Some(last) if is_same_sum(last, sum) => {
            Some(column_at(first, sums.len().saturating_sub(1)))
        }
        _ => None,
    }
}

// The column of a sum, which is added to the sums where it is new.
fn column_of(sums: &mut Vec<Atom>, first: u32, sum: Atom) -> Result<u32, AllocError> {
    if let Some(column) = known_column(sums, first, &sum) {
        return Ok(column);
    }
    let column = column_at(first, sums.len());
    sums.push(sum)?;
    Ok(column)
}

fn set_meaning(
    alloc: Global,
    columns: &mut Columns,
    atoms: &[Atom],
    place: u32,
    first: u32,
) -> Result<(), AllocError> {
    let atom = match atoms.get(place as usize) {
        Some(atom) => atom,
        None => return Ok(()),
    };
    let sum = normal_sum(alloc, atom)?;
    let column = column_of(&mut columns.sums, first, sum)?;
    if let Some(meaning) = columns.meanings.get_mut(place as usize) {
        *meaning = meaning_over(atom, column);
    }
    Ok(())
}

/// The columns of the atoms, where the first sum has this one.
pub fn columns_of(alloc: Global, atoms: &[Atom], first: u32) -> Result<Columns, AllocError> {
    let none = Meaning {
        column: 0,
        upper: true,
        limit: 0,
        divisor: 1,
    };
    let mut columns = Columns {
        sums: Vec::new(alloc),
        meanings: vec![in alloc; none; atoms.len()]?,
    };
    for (_, place) in by_sum(alloc, atoms)? {
        set_meaning(alloc, &mut columns, atoms, place, first)?;
    }
    Ok(columns)
}
