ghost use Rattle.std.specs.Prelude.{◌≡◌, ◌≢◌, ◌<◌, true, Bool, cond, IfOk, map, All};
ghost use Rattle.std.specs.Int.{int_rem_euclid};
ghost use lib.IntN.{pos, neg_ℤ};
ghost use lib.Signed.{◌<ℤ◌};
ghost use Rattle.proof_steps.specs.View.{row_view};
ghost use Rattle.proof_steps.specs.Rows.{entry, AllDiffer};
ghost use Rattle.int_simplex.specs.Given.{column_of, last_column, IsWithin};
ghost use Rattle.int_cuts.specs.Parts.{facing, differ, IsDefinedBy, IsPartOf, IsPushed, AreParts};

use crate::standing::bound_at;
use int_simplex::Tableau;
use std::alloc::{AllocError, Global};

// A bound in the cut's line, with its multiplier and the place of the given row that defines its
// column.
#[derive(Clone, Copy)]
pub(crate) struct Part {
    pub(crate) column: u32,
    pub(crate) upper: bool,
    pub(crate) limit: i128,
    pub(crate) literal: u32,
    pub(crate) multiplier: i128,
    pub(crate) row: Option<usize>,
}

// The entry of the column; no column stands twice.
pub(crate) fn entry_in(row: &[(u32, i128)], column: u32) -> i128
    requires { AllDiffer (map column_of row.now) }
    ensures { result ≡ entry row.now column }
{
    for t in row {
        if t.0 == column {
            return t.1;
        }
    }
    0
}

fn greatest_column(row: &[(u32, i128)]) -> u32
    ensures { result ≡ last_column row.now }
{
    let mut last = 0;
    for t in row {
        if t.0 > last {
            last = t.0;
        }
    }
    last
}

// The place of the given row that defines the column.
fn definition_of(given: &[Vec<(u32, i128)>], column: u32) -> Option<usize>
    ensures { IsDefinedBy (map row_view given.now) column result }
{
    for k in 0..given.len() {
        if greatest_column(&given[k]) == column {
            return Some(k);
        }
    }
    None
}

// The remainder of the number, or of its opposite.
fn remainder(e: i128, opposite: bool, d: i128) -> i128
    requires { pos 0 <ℤ d }
    ensures { result ≡ int_rem_euclid (cond opposite (neg_ℤ e) e) d }
{
    let rest = e.rem_euclid(d);
    if !opposite {
        return rest;
    }
    if rest == 0 {
        return 0;
    }
    d - rest
}

fn differs(left: bool, right: bool) -> bool
    ensures { result ≡ differ left right }
{
    left != right
}

// The part of a term of the row, or of its opposite where `down` is true: none for x, and none where
// the entry has no remainder.
fn part_of(tableau: &Tableau, x: u32, d: i128, down: bool, t: (u32, i128)) -> Option<Part>
    requires usable { tableau.now.usable ≡ true }
    requires in_range { t.0 < tableau.now.columns }
    requires divisor { pos 0 <ℤ d }
    ensures { IsPartOf tableau.now x d (facing down t) result }
{
    if t.0 == x {
        return None;
    }
    let (upper, limit, literal) = bound_at(tableau, t.0)?;
    let multiplier = remainder(t.1, differs(down, upper), d);
    if multiplier == 0 {
        return None;
    }
    let row = definition_of(tableau.given(), t.0);
    Some(Part {
        column: t.0,
        upper,
        limit,
        literal,
        multiplier,
        row,
    })
}

fn push_part(parts: &mut Vec<Part>, part: Option<Part>) -> Result<(), AllocError>
    ensures { IfOk result (λ _. IsPushed part parts.old.items parts.new.items) }
{
    if let Some(part) = part {
        parts.push(part)?;
    }
    Ok(())
}

// The parts of the row, or of its opposite.
pub(crate) fn parts_of(
    alloc: Global,
    tableau: &Tableau,
    row: &[(u32, i128)],
    x: u32,
    d: i128,
    down: bool,
) -> Result<Vec<Part>, AllocError>
    requires usable { tableau.now.usable ≡ true }
    requires in_range { IsWithin tableau.now.columns row.now }
    requires divisor { pos 0 <ℤ d }
    ensures { IfOk result (λ v. AreParts tableau.now x d (map (facing down) row.now) v.items) }
{
    let mut parts = Vec::new(alloc);
    for t in row {
        push_part(&mut parts, part_of(tableau, x, d, down, *t))?;
    }
    Ok(parts)
}
