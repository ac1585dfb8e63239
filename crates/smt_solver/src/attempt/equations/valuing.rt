//! Values of the variables by their definitions.

use crate::attempt::equations::halt::Halt;
use crate::attempt::equations::sides::{Ends, nearest};
use crate::attempt::equations::sums::Sum;
use crate::attempt::equations::table::{Definition, Table};
use kind_num::{add, mul};
use proof_steps::{Atom, Literal};
use sat_core::Search;
use std::alloc::Global;

// What the sum comes to.
fn value_of(sum: &Sum, values: &[i128]) -> Result<i128, Halt> {
    let mut value = sum.constant;
    for (variable, coefficient) in &sum.terms {
        if let Some(factor) = values.get(*variable as usize) {
            value = add(value, mul(*coefficient, *factor)?)?;
        }
    }
    Ok(value)
}

fn set_value(definition: &Definition, values: &mut Vec<i128>) -> Result<(), Halt> {
    let value = value_of(&definition.sum, values)?;
    if let Some(own) = values.get_mut(definition.variable as usize) {
        *own = value;
    }
    Ok(())
}

/// Of each variable a value: within its limits where it has no definition, and else what that comes to.
pub fn values(alloc: Global, table: &Table, ends: &[Ends]) -> Result<Vec<i128>, Halt> {
    let mut values = Vec::with_capacity(alloc, ends.len())?;
    for end in ends {
        values.push(nearest(*end))?;
    }
    let count = table.definitions.len();
    for behind in 0..count {
        let place = count.wrapping_sub(behind).wrapping_sub(1);
        if let Some(definition) = table.definitions.get(place) {
            set_value(definition, &mut values)?;
        }
    }
    Ok(values)
}

// Whether the atom is true with these values.
fn truth_of(atom: &Atom, values: &[i128]) -> Result<bool, Halt> {
    let mut value = 0;
    for (variable, coefficient) in atom.terms.as_slice() {
        if let Some(factor) = values.get(*variable as usize) {
            value = add(value, mul(*coefficient, *factor)?)?;
        }
    }
    Ok(value <= atom.bound)
}

/// Lets the search decide each atom over one variable next as these values make it, which most of the bounds asked for.
pub fn prefer(search: &mut Search, atoms: &[Atom], values: &[i128]) {
    for number in 1..u32::MAX {
        let Some(atom) = atoms.get(number as usize - 1) else {
            return;
        };
        if atom.terms.as_slice().len() == 1 {
            if let Ok(truth) = truth_of(atom, values) {
                search.prefer(Literal::Atom(number, truth));
            }
        }
    }
}
