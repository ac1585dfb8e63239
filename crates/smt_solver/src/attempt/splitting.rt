//! The atoms of splits, with what they say of the limits beside them.

ghost use Rattle.std.specs.Prelude.{◌≡◌, suc, length, IfOk};

use crate::attempt::record::{Record, add};
use crate::fault::SolveFault;
use crate::numbers::meanings::Meaning;
use crate::numbers::steps::{Used, conflict_step};
use crate::numbers::turns::{split_atom, split_step};
use proof_steps::Atom;
use std::alloc::{AllocError, Global};

// An upper limit of a column: it, with the literal that means it and what this is divided by.
#[derive(Clone, Copy)]
struct Limit {
    most: i128,
    atom: u32,
    sign: bool,
    divisor: i128,
}

fn limit_of(meaning: Meaning, atom: u32) -> Limit {
    let most = if meaning.upper {
        meaning.limit
    } else {
        meaning.limit.wrapping_sub(1)
    };
    Limit {
        most,
        atom,
        sign: meaning.upper,
        divisor: meaning.divisor,
    }
}

fn used(limit: Limit, below: bool) -> Used {
    Used {
        multiplier: 1,
        atom: limit.atom,
        sign: limit.sign == below,
        divisor: limit.divisor,
    }
}

// Adds the step that the column is above the first limit or at most the second.
fn add_order(
    alloc: Global,
    record: &mut Record,
    first: Limit,
    second: Limit,
) -> Result<(), SolveFault> {
    let both = vec![in alloc; used(first, true), used(second, false)]?;
    let step = conflict_step(alloc, &both)?;
    add(alloc, record, step)
}

fn nearer_below(best: Option<Limit>, limit: Limit, new: Limit) -> Option<Limit> {
    if limit.most > new.most {
        return best;
    }
    match best {
        Some(other) if other.most >= limit.most => best,
        _ => Some(limit),
    }
}

fn nearer_above(best: Option<Limit>, limit: Limit, new: Limit) -> Option<Limit> {
    if limit.most < new.most {
        return best;
    }
    match best {
        Some(other) if other.most <= limit.most => best,
        _ => Some(limit),
    }
}

// The nearest limits of the column that are at most and at least the new one.
fn neighbours(meanings: &[Meaning], column: u32, new: Limit) -> (Option<Limit>, Option<Limit>) {
    let mut below = None;
    let mut above = None;
    for place in 0..u32::MAX {
        match meanings.get(place as usize) {
            Some(meaning) if meaning.column == column => {
                let limit = limit_of(*meaning, place.wrapping_add(1));
                below = nearer_below(below, limit, new);
                above = nearer_above(above, limit, new);
            }
            Some(_) => (),
            None => break,
        }
    }
    (below, above)
}

/// Adds the steps that order the limit of a new atom among those of its column.
pub fn add_neighbours(
    alloc: Global,
    record: &mut Record,
    meanings: &[Meaning],
    new: Meaning,
    number: u32,
) -> Result<(), SolveFault> {
    let limit = limit_of(new, number);
    let (below, above) = neighbours(meanings, new.column, limit);
    if let Some(below) = below {
        add_order(alloc, record, below, limit)?;
    }
    if let Some(above) = above {
        add_order(alloc, record, limit, above)?;
    }
    Ok(())
}

/// The number of the atom behind these.
pub fn next_number(meanings: &[Meaning]) -> Result<u32, AllocError>
    ensures { IfOk result (λ n. n ≡ suc (length meanings.now)) }
{
    match u32::try_from(meanings.len()) {
        Ok(count) if count < u32::MAX => Ok(count + 1),
        _ => Err(AllocError),
    }
}

/// The atom `x <= c` of this number, with the steps that it or its opposite is true and that order its limit.
pub fn add_split(
    alloc: Global,
    record: &mut Record,
    atoms: &mut Vec<Atom>,
    meanings: &mut Vec<Meaning>,
    x: u32,
    c: i128,
) -> Result<(), SolveFault> {
    let number = next_number(meanings)?;
    let meaning = Meaning {
        column: x,
        upper: true,
        limit: c,
        divisor: 1,
    };
    add(alloc, record, split_step(alloc, number)?)?;
    add_neighbours(alloc, record, meanings, meaning, number)?;
    atoms.push(split_atom(alloc, x, c)?)?;
    meanings.push(meaning)?;
    Ok(())
}
