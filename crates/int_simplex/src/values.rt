ghost use Rattle.std.specs.Prelude.{ℕ, List, ◌≡◌, ◌<◌, IfOk, IfErr, ◌==◌, length, cond, map, slice_get, Some, All};
ghost use lib.IntN.{ℤ, pos, ◌*ℤ◌, ◌+ℤ◌, neg_ℤ};
ghost use lib.Signed.{◌<ℤ◌};
ghost use Rattle.kind_num.specs.Exact.{IsExact};
ghost use Rattle.kind_num.specs.declared.Op.TheVariants.{Sub};
ghost use Rattle.proof_steps.specs.View.{row_view};
ghost use Rattle.proof_steps.specs.Rows.{entry, rest_below, AllDiffer};
ghost use Rattle.int_simplex.specs.Sparse.{IsSparse};
ghost use Rattle.int_simplex.specs.Points.{IsFraction};
ghost use Rattle.int_simplex.specs.Given.{IsWithin};
ghost use Rattle.int_simplex.specs.Valued.{place_at, rest_in, IsTermPast, IsRestPast, IsValuePast, IsRowValue, AreValues, AreValuesBut, IsValuesPast};

use crate::crossing::divided;
use crate::making::entry_in;
use crate::stopping::past_over;
use crate::trouble::Stopped;
use kind_num::{Past, add, gcd, mul, sub};
use std::alloc::Global;

// The opposite number; past 128 bits is that of the least one alone.
pub(crate) fn negated(z: i128) -> Result<i128, Past>
    ensures { IsExact Sub (pos 0) z (neg_ℤ z) result }
{
    sub(0, z)
}

// The sum with the term at its place. Nothing is done for the own column, or at the place 0.
fn with_term(x: u32, place: i128, t: (u32, i128), sum: i128) -> Result<i128, Past>
    ensures sum { IfOk result (λ w. w ≡ cond (t.0 == x) sum (t.1 *ℤ place +ℤ sum)) }
    ensures past { IfErr result (IsTermPast x (λ _. place) t sum) }
{
    if t.0 == x || place == 0 {
        return Ok(sum);
    }
    add(mul(t.1, place)?, sum)
}

// The sum of the columns but x, each at its place times its entry.
fn rest(row: &[(u32, i128)], x: u32, places: &[i128]) -> Result<i128, Past>
    requires { IsSparse (length places.now) row.now }
    ensures sum { IfOk result (λ z. z ≡ rest_in x (place_at places.now) row.now) }
    ensures past { IfErr result (IsRestPast x (place_at places.now) row.now) }
{
    let mut sum = 0;
    for t in row {
        let (column, a) = *t;
        sum = with_term(x, places[column as usize], (column, a), sum)?;
    }
    Ok(sum)
}

// The fraction in lowest terms.
fn lowest(top: i128, bottom: i128) -> (i128, i128)
    requires { pos 0 <ℤ bottom }
    ensures fraction { IsFraction result }
    ensures same { top *ℤ result.1 ≡ result.0 *ℤ bottom }
{
    if bottom == 1 {
        return (top, bottom);
    }
    let g = gcd(top.unsigned_abs(), bottom.unsigned_abs());
    (divided(top, g), divided(bottom, g))
}

// The value that the row gives x.
pub(crate) fn value_in(row: &[(u32, i128)], x: u32, places: &[i128]) -> Result<(i128, i128), Past>
    requires { IsSparse (length places.now) row.now }
    ensures value { IfOk result (IsRowValue (length places.now) x (place_at places.now) row.now) }
    ensures past { IfErr result (IsValuePast x (place_at places.now) row.now) }
{
    let sum = rest(row, x, places)?;
    let own = entry_in(row, x);
    if own < 0 {
        Ok(lowest(sum, negated(own)?))
    } else if own > 0 {
        Ok(lowest(negated(sum)?, own))
    } else {
        Ok((0, 1))
    }
}

// The values after a change of the rows at these places: those of the others are what they were.
pub(crate) fn update_values(
    alloc: Global,
    given: &[Vec<(u32, i128)>],
    basis: &[u32],
    rows: &[Vec<(u32, i128)>],
    places: &[i128],
    touched: &[usize],
    values: &mut Vec<(i128, i128)>,
) -> Result<(), Stopped>
    requires count { length rows.now ≡ length basis.now }
    requires given { length given.now ≡ length basis.now }
    requires different { AllDiffer basis.now }
    requires in_range { All (λ c. c < length places.now) basis.now }
    requires sparse { (k : ℕ) (r : List (ℕ × ℤ)) → slice_get (map row_view rows.now) k ≡ Some r → IsSparse
        (length places.now) r }
    requires touched { All (λ k. k < length basis.now) touched.now }
    requires others { AreValuesBut basis.now (map row_view rows.now) places.now values.old.items touched.now }
    ensures values { IfOk result (λ _. AreValues basis.now (map row_view rows.now) places.now values.new.items) }
    ensures past { IfErr result (IsValuesPast (map row_view given.now) basis.now (map row_view rows.now)
        (place_at places.now)) }
{
    for i in 0..touched.len() {
        let k = touched[i];
        match value_in(&rows[k], basis[k], places) {
            Ok(v) => values[basis[k] as usize] = v,
            Err(past) => return Err(past_over(alloc, &rows[k], &given[0], past)),
        }
    }
    Ok(())
}
