ghost use Rattle.std.specs.Prelude.{◌≡◌, ◌↔◌, true, false, Bool, length, ◌<◌, MatchOption, All};
ghost use lib.IntN.{ℤ, pos};
ghost use lib.Signed.{◌<ℤ◌};
ghost use Rattle.kind_num.specs.Division.{IsFloor};
ghost use Rattle.proof_steps.specs.Pivots.{IsPast};
ghost use Rattle.int_simplex.specs.Points.{IsFraction};
ghost use Rattle.int_simplex.specs.Sparse.{IsSparse};
ghost use Rattle.int_simplex.specs.Choosing.{IsMissed, IsSooner, CanHelp, IsLeavingOf, IsEntering, CanMove, bare, is_same_side};

use crate::making::entry_in;
use kind_num::div_floor;

// A column of the basis by its place there, with the limit that it misses, above it where `side` is true.
#[derive(Clone, Copy)]
pub(crate) struct Exit {
    pub(crate) at: usize,
    pub(crate) column: u32,
    pub(crate) side: bool,
    pub(crate) limit: i128,
}

// The fraction, rounded down: most values are whole.
fn floor_of(v: (i128, i128)) -> i128
    requires { pos 0 <ℤ v.1 }
    ensures { IsFloor v.0 v.1 result }
{
    if v.1 == 1 { v.0 } else { div_floor(v.0, v.1) }
}

// In lowest terms a fraction is whole where its divisor is 1.
fn is_above(v: (i128, i128), limit: i128) -> bool
    requires { IsFraction v }
    ensures { (result ≡ true) ↔ IsPast true limit v.0 v.1 }
{
    let floor = floor_of(v);
    limit < floor || limit == floor && v.1 != 1
}

fn is_below(v: (i128, i128), limit: i128) -> bool
    requires { IsFraction v }
    ensures { (result ≡ true) ↔ IsPast false limit v.0 v.1 }
{
    floor_of(v) < limit
}

// The side on which the value misses a limit, and that limit.
fn missed(
    v: (i128, i128),
    low: Option<(i128, u32)>,
    high: Option<(i128, u32)>,
) -> Option<(bool, i128)>
    requires { IsFraction v }
    ensures { MatchOption result ((side : Bool) (limit : ℤ) → IsMissed low high v side limit → ⊥)
        (λ r. IsMissed low high v r.0 r.1) }
{
    if let Some((u, _)) = high
        && is_above(v, u)
    {
        return Some((true, u));
    }
    if let Some((l, _)) = low
        && is_below(v, l)
    {
        return Some((false, l));
    }
    None
}

// The better of the best one so far and this column, which stands at that place of the basis.
fn sooner(
    best: Option<Exit>,
    at: usize,
    column: u32,
    v: (i128, i128),
    low: Option<(i128, u32)>,
    high: Option<(i128, u32)>,
) -> Option<Exit>
    requires { IsFraction v }
    ensures { IsSooner best at column v low high result }
{
    if let Some(b) = best
        && b.column <= column
    {
        return best;
    }
    match missed(v, low, high) {
        None => best,
        Some((side, limit)) => Some(Exit {
            at,
            column,
            side,
            limit,
        }),
    }
}

// The least column of the basis that misses a limit.
pub(crate) fn leaving(
    basis: &[u32],
    values: &[(i128, i128)],
    lowers: &[Option<(i128, u32)>],
    uppers: &[Option<(i128, u32)>],
) -> Option<Exit>
    requires in_range { All (λ c. c < length values.now) basis.now }
    requires lowers { length lowers.now ≡ length values.now }
    requires uppers { length uppers.now ≡ length values.now }
    requires fractions { All IsFraction values.now }
    ensures { IsLeavingOf basis.now values.now lowers.now uppers.now (length basis.now) result }
{
    let mut best = None;
    for at in 0..basis.len() {
        let column = basis[at];
        let c = column as usize;
        best = sooner(best, at, column, values[c], lowers[c], uppers[c]);
    }
    best
}

// Whether a column at its place can move, down or up.
fn can_move(down: bool, place: i128, low: Option<(i128, u32)>, high: Option<(i128, u32)>) -> bool
    ensures { (result ≡ true) ↔ CanMove down (bare low) (bare high) place }
{
    let limit = if down { low } else { high };
    match limit {
        None => true,
        Some((l, _)) => if down { l < place } else { place < l },
    }
}

// Whether the column with that entry in the row of x can bring x back. `falls` says whether x itself
// has an entry above 0.
fn can_enter(
    x: u32,
    side: bool,
    falls: bool,
    column: u32,
    e: i128,
    place: i128,
    low: Option<(i128, u32)>,
    high: Option<(i128, u32)>,
) -> bool
    ensures { (result ≡ true) ↔ CanHelp x side falls column e place low high }
{
    let grows = (e > 0) != falls;
    column != x && can_move(side == grows, place, low, high)
}

// The least column outside the basis that can bring back x, which is past its limit on that side.
pub(crate) fn entering(
    row: &[(u32, i128)],
    x: u32,
    side: bool,
    places: &[i128],
    lowers: &[Option<(i128, u32)>],
    uppers: &[Option<(i128, u32)>],
) -> Option<u32>
    requires sparse { IsSparse (length places.now) row.now }
    requires lowers { length lowers.now ≡ length places.now }
    requires uppers { length uppers.now ≡ length places.now }
    ensures { IsEntering row.now x side places.now lowers.now uppers.now result }
{
    let falls = entry_in(row, x) > 0;
    for t in row {
        let (column, e) = *t;
        let c = column as usize;
        if can_enter(x, side, falls, column, e, places[c], lowers[c], uppers[c]) {
            return Some(column);
        }
    }
    None
}
