ghost use Prim.Native.Nat.{◌∣◌};
ghost use Rattle.std.specs.Prelude.{◌≡◌, ◌<◌, ◌≤◌, IfOk, IfErr, length, map, drop, min, unsigned_abs};
ghost use lib.IntN.{pos, ◌*ℤ◌};
ghost use Rattle.proof_steps.specs.Rows.{entry};
ghost use Rattle.int_simplex.specs.Sparse.{IsSparse, head_at, rest_at, first_column};
ghost use Rattle.int_simplex.specs.Crossing.{IsContent, HasEntry, HasEntries, IsCross, IsRowPast, IsReduced, IsPivoted, scaled, crossed as crossed_of};

use crate::making::entry_in;
use crate::trouble::Trouble;
use kind_num::{Past, div_floor, gcd, mul, sub};
use std::alloc::{AllocError, Global};

fn content(row: &[(u32, i128)]) -> u128
    ensures { IsContent row.now result }
{
    let mut divisor = 0;
    for t in row {
        if divisor == 1 {
            return 1;
        }
        divisor = gcd(divisor, t.1.unsigned_abs());
    }
    divisor
}

// The quotient without a remainder. By 2^127 only 0 and the least number can be divided.
pub(crate) fn divided(a: i128, g: u128) -> i128
    requires positive { 0 < g }
    requires exact { g ∣ unsigned_abs a }
    ensures { pos g *ℤ result ≡ a }
{
    if g == 1 {
        return a;
    }
    if g > i128::MAX as u128 {
        return if a == 0 { 0 } else { -1 };
    }
    div_floor(a, g as i128)
}

fn parts(alloc: Global, row: &[(u32, i128)], g: u128) -> Result<Vec<(u32, i128)>, AllocError>
    requires positive { 0 < g }
    requires content { IsContent row.now g }
    ensures { IfOk result (λ v. map (scaled g) v.items ≡ row.now) }
{
    let mut out = Vec::new(alloc);
    for t in row {
        let (column, a) = *t;
        out.push((column, divided(a, g)))?;
    }
    Ok(out)
}

// The row without its common factor; a row of zeros has none.
fn reduced(alloc: Global, row: Vec<(u32, i128)>) -> Result<Vec<(u32, i128)>, AllocError>
    ensures { IfOk result (λ v. HasEntry row.items → IsReduced row.items v.items) }
{
    let g = content(&row);
    if g <= 1 {
        return Ok(row);
    }
    parts(alloc, &row, g)
}

fn crossed_number(p: i128, a: i128, q: i128, b: i128) -> Result<i128, Past>
    ensures { IsCross p q a b result }
{
    let left = mul(p, a)?;
    let right = mul(q, b)?;
    sub(left, right)
}

pub(crate) fn lesser(left: u32, right: u32) -> u32
    ensures { result ≡ min left right }
{
    if left < right { left } else { right }
}

// The column at the place, or `columns` past the end.
pub(crate) fn column_at(row: &[(u32, i128)], i: usize, columns: u32) -> u32
    ensures { result ≡ first_column (drop i row.now) columns }
{
    if i < row.len() { row[i].0 } else { columns }
}

// The number at the place, if the column stands there.
pub(crate) fn number_at(row: &[(u32, i128)], i: usize, column: u32) -> i128
    ensures { result ≡ head_at (drop i row.now) column }
{
    if i < row.len() && row[i].0 == column {
        row[i].1
    } else {
        0
    }
}

// The place after that of the column, if it stands at this one.
pub(crate) fn place_after(row: &[(u32, i128)], i: usize, column: u32) -> usize
    requires { i ≤ length row.now }
    ensures rest { drop result row.now ≡ rest_at (drop i row.now) column }
    ensures within { result ≤ length row.now }
{
    if i < row.len() && row[i].0 == column {
        i + 1
    } else {
        i
    }
}

// A multiple of the row less one of the other.
fn crossed(
    alloc: Global,
    columns: u32,
    p: i128,
    row: &[(u32, i128)],
    q: i128,
    other: &[(u32, i128)],
) -> Result<Vec<(u32, i128)>, Trouble>
    requires row { IsSparse columns row.now }
    requires other { IsSparse columns other.now }
    ensures made { IfOk result (λ v. HasEntries columns (crossed_of p q row.now other.now) v.items) }
    ensures past { IfErr result (IsRowPast p q row.now other.now) }
{
    let mut out = Vec::new(alloc);
    let mut i = 0;
    let mut j = 0;
    let mut next = 0;
    while next < columns {
        let column = lesser(column_at(row, i, columns), column_at(other, j, columns));
        if column >= columns {
            return Ok(out);
        }
        let z = crossed_number(p, number_at(row, i, column), q, number_at(other, j, column))?;
        if z != 0 {
            out.push((column, z))?;
        }
        i = place_after(row, i, column);
        j = place_after(other, j, column);
        next = column + 1;
    }
    Ok(out)
}

// The row after a pivot on the column, where `other` is that of the leaving column.
pub(crate) fn pivoted(
    alloc: Global,
    columns: u32,
    entering: u32,
    row: &[(u32, i128)],
    other: &[(u32, i128)],
) -> Result<Vec<(u32, i128)>, Trouble>
    requires row { IsSparse columns row.now }
    requires other { IsSparse columns other.now }
    ensures made { IfOk result (λ v. IsPivoted columns entering row.now other.now v.items) }
    ensures past { IfErr result (IsRowPast (entry other.now entering) (entry row.now entering) row.now other.now) }
{
    let p = entry_in(other, entering);
    let q = entry_in(row, entering);
    let made = crossed(alloc, columns, p, row, q, other)?;
    if made.is_empty() {
        return Ok(made);
    }
    let new = reduced(alloc, made)?;
    Ok(new)
}
