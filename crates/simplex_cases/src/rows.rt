ghost use Rattle.std.specs.Prelude.{◌≤◌, ◌+◌, ◌≡◌, IfOk, map};
ghost use Rattle.proof_steps.specs.View.{row_view};
ghost use Rattle.int_simplex.specs.Given.{AreGiven};
ghost use Rattle.simplex_cases.specs.Made.{IsMade, IsGrown};

use std::alloc::{AllocError, Global};

/// The number at the place, or 0.
pub fn number_at(numbers: &[i128], place: usize) -> i128 {
    match numbers.get(place) {
        Some(a) => *a,
        None => 0,
    }
}

fn push_entry(row: &mut Vec<(u32, i128)>, column: u32, a: i128) -> Result<(), AllocError>
    ensures { IfOk result (λ _. IsGrown column a row.old.items row.new.items) }
{
    if a != 0 {
        row.push((column, a))?;
    }
    Ok(())
}

// The coefficients of variables from 0 on, and -1 in a column of the row's own.
fn row_of(
    alloc: Global,
    variables: u32,
    coefficients: &[i128],
    from: usize,
    own: u32,
) -> Result<Vec<(u32, i128)>, AllocError>
    requires { variables ≤ own }
    ensures { IfOk result (λ v. IsMade variables own v.items) }
{
    let mut row = Vec::new(alloc);
    for column in 0..variables {
        let a = number_at(coefficients, from.wrapping_add(column as usize));
        push_entry(&mut row, column, a)?;
    }
    row.push((own, -1))?;
    Ok(row)
}

/// Rows over so many variables, each with the next of the coefficients, and a column of its own
/// after the variables.
pub fn rows_of(
    alloc: Global,
    variables: u32,
    count: u32,
    coefficients: &[i128],
) -> Result<Vec<Vec<(u32, i128)>>, AllocError>
    requires { variables + count ≤ 4294967295 }
    ensures { IfOk result (λ v. AreGiven (map row_view v.items) (variables + count)) }
{
    let mut rows = Vec::new(alloc);
    let mut from: usize = 0;
    for j in 0..count {
        rows.push(row_of(alloc, variables, coefficients, from, variables + j)?)?;
        from = from.wrapping_add(variables as usize);
    }
    Ok(rows)
}
