//! Sums of variables.

use crate::attempt::equations::halt::Halt;
use kind_num::{add, mul};

// With more terms than these a sum is too wide.
const WIDEST: usize = 32;

/// A sum of variables, each once with its coefficient, and a constant.
#[derive(Drop)]
pub struct Sum {
    pub constant: i128,
    pub terms: Vec<(u32, i128)>,
}

// The place of the variable among the terms.
fn place_of(terms: &[(u32, i128)], variable: u32) -> Option<usize> {
    for (place, term) in terms.iter().enumerate() {
        if term.0 == variable {
            return Some(place);
        }
    }
    None
}

/// Takes the term at this place out of the sum, and gives its coefficient.
pub fn take_term(sum: &mut Sum, place: usize) -> i128 {
    if place < sum.terms.len() {
        let (_, coefficient) = sum.terms.swap_remove(place);
        return coefficient;
    }
    0
}

/// Adds so many times the variable.
pub fn add_variable(sum: &mut Sum, variable: u32, coefficient: i128) -> Result<(), Halt> {
    let Some(place) = place_of(&sum.terms, variable) else {
        if sum.terms.len() >= WIDEST {
            return Err(Halt::Wide);
        }
        sum.terms.push((variable, coefficient))?;
        return Ok(());
    };
    let was = take_term(sum, place);
    let is = add(was, coefficient)?;
    if is != 0 {
        sum.terms.push((variable, is))?;
    }
    Ok(())
}

/// Adds so many times the other sum.
pub fn add_sum(sum: &mut Sum, other: &Sum, factor: i128) -> Result<(), Halt> {
    let constant = mul(factor, other.constant)?;
    sum.constant = add(sum.constant, constant)?;
    for (variable, coefficient) in &other.terms {
        add_variable(sum, *variable, mul(factor, *coefficient)?)?;
    }
    Ok(())
}
