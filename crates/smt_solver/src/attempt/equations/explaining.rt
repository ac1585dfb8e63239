//! Which bounds refute each other.

ghost use Rattle.std.specs.Prelude.{◌≡◌, true};

use crate::attempt::equations::halt::Halt;
use crate::attempt::equations::sides::Side;
use crate::attempt::equations::table::{Definition, Table};
use int_simplex::Tableau;
use kind_num::{add, mul, sub};
use std::alloc::Global;

/// What a refutation has so far: how many times each definition counts, and the bounds with their multipliers.
#[derive(Drop)]
struct Refutation {
    weights: Vec<i128>,
    parts: Vec<(i128, u32)>,
}

// Takes so many times these uses from the weights.
fn take_uses(weights: &mut Vec<i128>, uses: &[(usize, i128)], factor: i128) -> Result<(), Halt> {
    for (place, number) in uses {
        if let Some(weight) = weights.get_mut(*place) {
            *weight = sub(*weight, mul(factor, *number)?)?;
        }
    }
    Ok(())
}

// Adds the side's bound, or its opposite.
fn add_side(refutation: &mut Refutation, side: &Side, is_opposite: bool) -> Result<(), Halt> {
    refutation.parts.push((1, side.atom))?;
    let factor = if side.is_upper != is_opposite { 1 } else { -1 };
    take_uses(&mut refutation.weights, &side.reduced.uses, factor)
}

// The bound of a column whose bounds meet, by which so many times its equation is an inequality.
fn bound_of(tableau: &Tableau, column: u32, multiplier: i128) -> Result<(i128, u32), Halt>
    requires { tableau.now.usable ≡ true }
{
    if column >= tableau.columns() {
        return Err(Halt::Wide);
    }
    let size = if multiplier < 0 {
        sub(0, multiplier)?
    } else {
        multiplier
    };
    match tableau.bound(column, multiplier > 0) {
        Some((_, atom)) => Ok((size, atom)),
        None => Err(Halt::Wide),
    }
}

// Replaces what the definition counts by its column's bound and by earlier definitions.
fn add_definition(
    refutation: &mut Refutation,
    tableau: &Tableau,
    definition: &Definition,
    weight: i128,
) -> Result<(), Halt>
    requires { tableau.now.usable ≡ true }
{
    let multiplier = if definition.is_opposite {
        sub(0, weight)?
    } else {
        weight
    };
    let part = bound_of(tableau, definition.column, multiplier)?;
    refutation.parts.push(part)?;
    take_uses(&mut refutation.weights, &definition.uses, multiplier)
}

// The definitions that count, the last one first.
fn add_definitions(
    refutation: &mut Refutation,
    tableau: &Tableau,
    table: &Table,
) -> Result<(), Halt>
    requires { tableau.now.usable ≡ true }
{
    let count = table.definitions.len();
    for behind in 0..count {
        let place = count.wrapping_sub(behind).wrapping_sub(1);
        if let (Some(definition), Some(weight)) = (
            table.definitions.get(place),
            refutation.weights.get(place),
        ) {
            let weight = *weight;
            if weight != 0 {
                add_definition(refutation, tableau, definition, weight)?;
            }
        }
    }
    Ok(())
}

fn nothing(alloc: Global, table: &Table) -> Result<Refutation, Halt> {
    Ok(Refutation {
        weights: vec![in alloc; 0; table.definitions.len()]?,
        parts: Vec::new(alloc),
    })
}

/// The multipliers, with numbers of atoms, of bounds whose sum is false: of these, and of the columns by which
/// variables are defined.
pub fn explained(
    alloc: Global,
    tableau: &Tableau,
    table: &Table,
    first: &Side,
    second: Option<&Side>,
) -> Result<Vec<(i128, u32)>, Halt>
    requires { tableau.now.usable ≡ true }
{
    let mut refutation = nothing(alloc, table)?;
    add_side(&mut refutation, first, false)?;
    if let Some(second) = second {
        add_side(&mut refutation, second, false)?;
    }
    add_definitions(&mut refutation, tableau, table)?;
    Ok(refutation.parts)
}

/// The same of the opposite of a bound that is met whatever the variables are.
pub fn decided(
    alloc: Global,
    tableau: &Tableau,
    table: &Table,
    side: &Side,
) -> Result<Vec<(i128, u32)>, Halt>
    requires { tableau.now.usable ≡ true }
{
    let mut refutation = nothing(alloc, table)?;
    add_side(&mut refutation, side, true)?;
    add_definitions(&mut refutation, tableau, table)?;
    Ok(refutation.parts)
}
