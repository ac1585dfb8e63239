ghost use Rattle.std.specs.Prelude.{◌≡◌, ◌<◌, ◌≤◌, IfOk, IfErr, map, length, unsigned_abs};
ghost use lib.IntN.{pos};
ghost use Rattle.proof_steps.specs.View.{row_view};
ghost use Rattle.int_simplex.specs.Sparse.{IsSparse};
ghost use Rattle.int_simplex.specs.Valued.{IsOpposedPast};
ghost use Rattle.int_simplex.specs.Choosing.{on_side, differs};
ghost use Rattle.int_simplex.specs.Refuting.{literal_in, part_of, IsSizePast};

use crate::answers::Farkas;
use crate::making::entry_in;
use crate::stopping::past_over;
use crate::trouble::Stopped;
use crate::values::negated;
use kind_num::Past;
use std::alloc::Global;

pub(crate) fn literal_of(limit: Option<(i128, u32)>) -> u32
    ensures { result ≡ literal_in limit }
{
    match limit {
        None => 0,
        Some((_, literal)) => literal,
    }
}

fn differ(left: bool, right: bool) -> bool
    ensures { result ≡ differs left right }
{
    left != right
}

fn chosen(upper: bool, low: Option<(i128, u32)>, high: Option<(i128, u32)>) -> Option<(i128, u32)>
    ensures { result ≡ on_side upper low high }
{
    if upper { high } else { low }
}

fn size(z: i128) -> Result<i128, Past>
    ensures size { IfOk result (λ m. m ≡ pos (unsigned_abs z)) }
    ensures past { IfErr result (IsOpposedPast z) }
{
    if z < 0 { negated(z) } else { Ok(z) }
}

// The bounds that keep x, which is past its limit on that side, from it: those of its row's columns.
pub(crate) fn farkas_of(
    alloc: Global,
    given: &[Vec<(u32, i128)>],
    row: &[(u32, i128)],
    x: u32,
    side: bool,
    lowers: &[Option<(i128, u32)>],
    uppers: &[Option<(i128, u32)>],
) -> Result<Farkas, Stopped>
    requires given { 0 < length given.now }
    requires sparse { IsSparse (length lowers.now) row.now }
    requires uppers { length uppers.now ≡ length lowers.now }
    ensures parts { IfOk result (λ f. f.parts.items ≡ map (part_of row.now x side lowers.now uppers.now) row.now) }
    ensures past { IfErr result (IsSizePast row.now (map row_view given.now)) }
{
    let falls = entry_in(row, x) > 0;
    let mut parts = Vec::new(alloc);
    for t in row {
        let (column, e) = *t;
        let c = column as usize;
        let multiplier = match size(e) {
            Ok(multiplier) => multiplier,
            Err(past) => return Err(past_over(alloc, row, &given[0], past)),
        };
        let limit = chosen(differ(differ(e > 0, falls), side), lowers[c], uppers[c]);
        parts.push((multiplier, literal_of(limit)))?;
    }
    Ok(Farkas { parts })
}
