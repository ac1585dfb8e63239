//! Variables as sums of others.

use crate::attempt::equations::halt::Halt;
use crate::attempt::equations::sums::{Sum, add_sum, take_term};
use kind_num::{mul, sub};
use std::alloc::{AllocError, Global};

// After so many replacements a sum is left.
const MOST: usize = 1024;

/// A sum in which variables were replaced, and how many times each definition was used, by its place.
#[derive(Drop)]
pub struct Reduced {
    pub sum: Sum,
    pub uses: Vec<(usize, i128)>,
}

/// A variable as a sum of others, by a column whose bounds meet. The equation is the column's, or its opposite, less
/// the uses of earlier definitions.
#[derive(Drop)]
pub struct Definition {
    pub column: u32,
    pub variable: u32,
    pub is_opposite: bool,
    pub sum: Sum,
    pub uses: Vec<(usize, i128)>,
}

/// The definitions in the order in which they were made, and for each variable the place of its own. A sum has no
/// variable that was defined before it.
#[derive(Drop)]
pub struct Table {
    pub places: Vec<Option<usize>>,
    pub definitions: Vec<Definition>,
}

impl Table {
    /// So many variables, and no definition.
    pub fn new(alloc: Global, variables: usize) -> Result<Table, AllocError> {
        Ok(Table {
            places: vec![in alloc; None; variables]?,
            definitions: Vec::new(alloc),
        })
    }
}

// The place of the variable's definition.
fn definition_of(table: &Table, variable: u32) -> Option<usize> {
    match table.places.get(variable as usize) {
        Some(place) => *place,
        None => None,
    }
}

// The first term whose variable has a definition, and the place of that.
fn first_defined(table: &Table, terms: &[(u32, i128)]) -> Option<(usize, usize)> {
    for (at, term) in terms.iter().enumerate() {
        if let Some(place) = definition_of(table, term.0) {
            return Some((at, place));
        }
    }
    None
}

// Replaces the variable at this place of the sum by its definition.
fn replace(table: &Table, reduced: &mut Reduced, at: usize, place: usize) -> Result<(), Halt> {
    let Some(definition) = table.definitions.get(place) else {
        return Err(Halt::Wide);
    };
    let coefficient = take_term(&mut reduced.sum, at);
    reduced.uses.push((place, coefficient))?;
    add_sum(&mut reduced.sum, &definition.sum, coefficient)
}

/// The sum of these terms in variables that have no definition.
pub fn reduce(alloc: Global, table: &Table, terms: Vec<(u32, i128)>) -> Result<Reduced, Halt> {
    let mut reduced = Reduced {
        sum: Sum { constant: 0, terms },
        uses: Vec::new(alloc),
    };
    for _replacement in 0..MOST {
        match first_defined(table, &reduced.sum.terms) {
            Some((at, place)) => replace(table, &mut reduced, at, place)?,
            None => return Ok(reduced),
        }
    }
    Err(Halt::Wide)
}

// The term with the greatest variable of those with the coefficient 1 or -1.
fn last_plain(terms: &[(u32, i128)]) -> Option<(usize, u32)> {
    let mut last = None;
    for (at, (variable, coefficient)) in terms.iter().enumerate() {
        let is_plain = *coefficient == 1 || *coefficient == -1;
        match last {
            Some((_, other)) if other >= *variable => {}
            _ if is_plain => last = Some((at, *variable)),
            _ => {}
        }
    }
    last
}

// What the variable is, where with this coefficient and the sum it comes to the limit.
fn solved(alloc: Global, sum: &Sum, is_opposite: bool, limit: i128) -> Result<Sum, Halt> {
    let factor = if is_opposite { 1 } else { -1 };
    let constant = mul(factor, sub(sum.constant, limit)?)?;
    let mut own = Sum {
        constant: 0,
        terms: Vec::new(alloc),
    };
    add_sum(&mut own, sum, factor)?;
    own.constant = constant;
    Ok(own)
}

/// Takes the equation that the column, whose sum has these terms, comes to the limit, where a variable can be defined
/// by it. Else the answer is false.
pub fn take_equation(
    alloc: Global,
    table: &mut Table,
    column: u32,
    terms: Vec<(u32, i128)>,
    limit: i128,
) -> Result<bool, Halt> {
    let Reduced { mut sum, uses } = reduce(alloc, table, terms)?;
    let Some((at, variable)) = last_plain(&sum.terms) else {
        return Ok(false);
    };
    let is_opposite = take_term(&mut sum, at) < 0;
    let sum = solved(alloc, &sum, is_opposite, limit)?;
    let place = table.definitions.len();
    table.definitions.push(Definition {
        column,
        variable,
        is_opposite,
        sum,
        uses,
    })?;
    if let Some(own) = table.places.get_mut(variable as usize) {
        *own = Some(place);
    }
    Ok(true)
}
