//! A look at the numbers at a full assignment.

ghost use Rattle.std.specs.Prelude.{◌≡◌, ◌<◌, ◌-◌, ◌^◌, true, All, length, IfOk, IfSome};
ghost use Rattle.proof_steps.specs.Rows.{rows_of};
ghost use Rattle.cnf_maker.specs.Plain.{IsPlain};
ghost use Rattle.int_cuts.specs.Splits.{IsSplitOf};
ghost use Rattle.smt_solver.specs.Asserting.{HasColumnBelow, bounds_at};
ghost use Rattle.smt_solver.specs.Conflicting.{AreMeaningsOf, IsSettled};
ghost use Rattle.smt_solver.specs.Looking.{Looks, LooksFrom};
ghost use Rattle.smt_solver.specs.Near.{IsNear, IsRoomy};
ghost use Rattle.smt_solver.specs.Run.{IsRun, work_view};
ghost use Rattle.smt_solver.specs.Turning.{HasMeanings};

use crate::fault::SolveFault;
use crate::numbers::asserting::assert_all;
use crate::numbers::meanings::Meaning;
use crate::numbers::turns::{crossed, refuted};
use crate::work::Work;
use int_cuts::split_of;
use int_simplex::{Checkup, Tableau};
use proof_steps::{PastStep, Start};
use std::alloc::Global;

/// What the numbers come to at a full assignment.
#[derive(Drop)]
pub enum Look {
    /// Values meet the bounds that atoms mean.
    Fits,
    /// None do, and the clause that says so is added and listed.
    Counted,
    /// From this start Bland's rule makes more pivots than the budget.
    Pivots(Start),
    /// An operation of the check or of the clause's step is outside 128 bits.
    Past(PastStep),
}

// Checks the tableau, in which the bounds of the atoms' values stand.
fn checked(
    alloc: Global,
    work: &mut Work,
    tableau: &mut Tableau,
    meanings: &[Meaning],
    pivots: u64,
) -> Result<Look, SolveFault>
    requires run { IsRun (work_view work.old) }
    requires plain { IsPlain (work_view work.old).form }
    requires meanings { AreMeaningsOf (work_view work.old).form meanings.now }
    requires settled { IsSettled (work_view work.old) }
    requires near { All IsNear meanings.now }
    requires few { length meanings.now < 2 ^ 32 - 1 }
    requires few_atoms { length (work_view work.old).form.atoms < 2 ^ 32 }
    requires meant { All HasMeanings (work_view work.old).form.atoms }
    requires usable { tableau.old.usable ≡ true }
    requires given { tableau.old.given ≡ rows_of (work_view work.old).form }
    requires bounds { tableau.old.bounds ≡ bounds_at (work_view work.old).search.trail 1 meanings.now }
    ensures { IfOk result
        (LooksFrom (work_view work.old) (work_view work.new) tableau.old tableau.new meanings.now pivots) }
{
    match tableau.check(alloc, pivots)? {
        Checkup::Fits => {
            let _columns = tableau.columns();
            Ok(Look::Fits)
        }
        Checkup::Pivots(start) => Ok(Look::Pivots(start)),
        Checkup::Past(step) => Ok(Look::Past(step)),
        Checkup::Refuted(farkas) => {
            let _columns = tableau.columns();
            let first = &tableau.given()[0];
            match refuted(alloc, work, meanings, first, &farkas.parts)? {
                None => Ok(Look::Counted),
                Some(step) => Ok(Look::Past(step)),
            }
        }
    }
}

/// Asserts what the atoms mean by their values, and looks for values of the numbers that meet it.
pub fn look_at_numbers(
    alloc: Global,
    work: &mut Work,
    tableau: &mut Tableau,
    meanings: &[Meaning],
    pivots: u64,
) -> Result<Look, SolveFault>
    requires run { IsRun (work_view work.old) }
    requires plain { IsPlain (work_view work.old).form }
    requires meanings { AreMeaningsOf (work_view work.old).form meanings.now }
    requires settled { IsSettled (work_view work.old) }
    requires near { All IsNear meanings.now }
    requires few { length meanings.now < 2 ^ 32 - 1 }
    requires few_atoms { length (work_view work.old).form.atoms < 2 ^ 32 }
    requires meant { All HasMeanings (work_view work.old).form.atoms }
    requires usable { tableau.old.usable ≡ true }
    requires in_range { All (HasColumnBelow tableau.old.columns) meanings.now }
    requires given { tableau.old.given ≡ rows_of (work_view work.old).form }
    ensures { IfOk result
        (Looks (work_view work.old) (work_view work.new) tableau.old tableau.new meanings.now pivots) }
{
    match assert_all(alloc, &work.search, tableau, meanings)? {
        None => {
            let _columns = tableau.columns();
            checked(alloc, work, tableau, meanings, pivots)
        }
        Some((first, second)) => {
            crossed(alloc, work, meanings, first, second)?;
            Ok(Look::Counted)
        }
    }
}

/// The least column whose value is not whole, with its floor, which leaves room in 128 bits; none where all
/// values are whole.
pub fn broken_value(tableau: &Tableau) -> Option<(u32, i128)>
    requires { tableau.now.usable ≡ true }
    ensures split { IsSplitOf tableau.now.values result }
    ensures near { IfSome result (λ p. IsRoomy p.1) }
{
    let _columns = tableau.columns();
    let (x, floor) = match split_of(tableau) {
        Some(split) => split,
        None => return None,
    };
    let _value = tableau.value(x);
    Some((x, floor))
}
