ghost use Rattle.std.specs.Prelude.{◌≡◌, ◌≢◌, ◌<◌, true, IfOk, IfErr, IfSome, MatchOption, map, length, unsigned_abs};
ghost use lib.IntN.{pos};
ghost use lib.Signed.{◌<ℤ◌};
ghost use Rattle.kind_num.specs.Exact.{within};
ghost use Rattle.int_simplex.specs.Given.{IsInOrder, IsWithin, HasNoZero};
ghost use Rattle.int_simplex.specs.OnRows.{AreOnRows};
ghost use Rattle.int_simplex.specs.Sound.{IsSound};
ghost use Rattle.int_cuts.specs.Cuts.{IsCutAnswer, IsAnswerFor};
ghost use Rattle.int_cuts.specs.Splits.{IsBroken};
ghost use Rattle.int_cuts.specs.Parts.{IsSizePast, IsCutMade, AreTermsPast, AreDefined, AreDistinct, IsRowOf, NoneLooseIn};

use crate::cuts::{Cut, CutAnswer, CutFault};
use crate::parts::{Part, entry_in, parts_of};
use crate::splits::split_of;
use crate::standing::loose_in;
use crate::sums::{bound_of, sources_of, terms_of};
use crate::trouble::Trouble;
use int_simplex::Tableau;
use kind_num::{Past, sub};
use proof_steps::{Atom, Line};
use std::alloc::Global;

// The size of the number; past 128 bits is that of the least one alone.
fn size(z: i128) -> Result<i128, Past>
    ensures size { IfOk result (λ m. m ≡ pos (unsigned_abs z)) }
    ensures past { IfErr result (IsSizePast z) }
{
    if z < 0 { sub(0, z) } else { Ok(z) }
}

// The line of the parts with its atom.
fn cut_by(
    alloc: Global,
    tableau: &Tableau,
    columns: u32,
    parts: &[Part],
    d: i128,
) -> Result<Cut, Trouble>
    requires usable { tableau.now.usable ≡ true }
    requires columns { columns ≡ tableau.now.columns }
    requires distinct { AreDistinct tableau.now.given }
    requires divisor { pos 0 <ℤ d }
    requires defined { AreDefined (length tableau.now.given) parts.now }
    ensures cut { IfOk result (IsCutMade tableau.now parts.now d) }
    ensures past { IfErr result (AreTermsPast tableau.now.given parts.now) }
{
    let terms = terms_of(alloc, tableau.given(), columns, parts, d)?;
    let bound = bound_of(tableau.given(), parts, d)?;
    let sources = sources_of(alloc, parts)?;
    Ok(Cut {
        line: Line {
            parts: sources,
            divisor: d,
        },
        atom: Atom { terms, bound },
    })
}

// The cut of the row of x, where each other column stands at a bound.
fn cut_in(
    alloc: Global,
    tableau: &Tableau,
    columns: u32,
    row: &[(u32, i128)],
    x: u32,
) -> Result<CutAnswer, CutFault>
    requires usable { tableau.now.usable ≡ true }
    requires columns { columns ≡ tableau.now.columns }
    requires sound { IsSound tableau.now }
    requires on_rows { AreOnRows tableau.now }
    requires row { IsRowOf tableau.now x row.now }
    requires broken { IsBroken tableau.now.values x }
    requires stands { NoneLooseIn tableau.now row.now x }
    ensures { IfOk result (IsAnswerFor tableau.now x) }
{
    let own = entry_in(row, x);
    let d = match size(own) {
        Ok(d) => d,
        Err(past) => return Ok(CutAnswer::Past(past)),
    };
    let parts = parts_of(alloc, tableau, row, x, d, own > 0)?;
    match cut_by(alloc, tableau, columns, &parts, d) {
        Ok(cut) => Ok(CutAnswer::Cut(cut)),
        Err(Trouble::Past(past)) => Ok(CutAnswer::Past(past)),
        Err(Trouble::Memory) => Err(CutFault::Memory),
    }
}

/// The cut of the row of the least column whose value is not whole.
///
/// `Whole` comes where all values are whole. Else the least other column of the row that stands at
/// none of its bounds is looked for first. `Past` shows an operation over the row that is outside
/// 128 bits.
pub fn cut_of(alloc: Global, tableau: &Tableau) -> Result<CutAnswer, CutFault>
    requires { tableau.now.usable ≡ true }
    ensures { IfOk result (IsCutAnswer tableau.now) }
{
    let columns = tableau.columns();
    let Some((x, _)) = split_of(tableau) else {
        return Ok(CutAnswer::Whole);
    };
    let Some(row) = tableau.row(x) else {
        return Ok(CutAnswer::Whole);
    };
    match loose_in(tableau, row, x) {
        Some(column) => Ok(CutAnswer::Loose(column)),
        None => cut_in(alloc, tableau, columns, row, x),
    }
}
