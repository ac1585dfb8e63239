//! The turns of a run that numbers make.

ghost use Rattle.std.specs.Prelude.{◌≡◌, ◌<◌, ◌^◌, ◌++◌, ◌∷◌, [], ℕ, Some, All, length, slice_get, OnOk, IfOk};
ghost use lib.IntN.{ℤ, pos, neg_ℤ};
ghost use lib.Signed.{◌≤ℤ◌, ◌<ℤ◌};
ghost use Rattle.kind_num.specs.declared.Shape.TheVariants.{Number};
ghost use Rattle.proof_steps.specs.Bounds.{split_atom as atom_of_split};
ghost use Rattle.proof_steps.specs.View.{atom_view, row_view, step_view};
ghost use Rattle.cnf_maker.specs.Plain.{IsPlain};
ghost use Rattle.smt_solver.specs.Asserting.{both_parts};
ghost use Rattle.smt_solver.specs.Conflicting.{AreMeaningsOf, AreRefuted};
ghost use Rattle.smt_solver.specs.Growing.{split_move};
ghost use Rattle.smt_solver.specs.Near.{IsNear};
ghost use Rattle.smt_solver.specs.Run.{IsRun, work_view};
ghost use Rattle.smt_solver.specs.Turning.{HasMeanings, IsCounted, IsSplitOff, TurnsRefutation, meaning_of_split};

use crate::fault::SolveFault;
use crate::laws::{refuted_bounds_conflict, runs_grow, splits_are_taken};
use crate::numbers::meanings::Meaning;
use crate::numbers::steps::{Used, conflict_step, uses};
use crate::numbers::sums::{past_step, shares, step_past};
use crate::work::{Work, count_step, take_step};
use line_laws::laws::{
    fitting_steps_are_taken, fitting_sums_fit, past_sums_are_past, refuted_bounds_sum_to_nothing,
};
use proof_steps::{Atom, PastStep, Step};
use smallvec::SmallVec;
use std::alloc::{AllocError, Global};

/// Adds the clause of the theory step that a refutation gives, and lists it; or tells an operation of the
/// step that is outside 128 bits, with the row that refutes and the first given one.
///
/// The answer is want of memory also where what is used can't be numbered by 32 bits.
pub fn refuted(
    alloc: Global,
    work: &mut Work,
    meanings: &[Meaning],
    first: &Vec<(u32, i128)>,
    parts: &[(i128, u32)],
) -> Result<Option<PastStep>, SolveFault>
    requires run { IsRun (work_view work.old) }
    requires refuted { AreRefuted (work_view work.old) meanings.now parts.now }
    requires near { All IsNear meanings.now }
    requires few { length meanings.now < 2 ^ 32 }
    requires few_atoms { length (work_view work.old).form.atoms < 2 ^ 32 }
    requires meant { All HasMeanings (work_view work.old).form.atoms }
    ensures { IfOk result
        (TurnsRefutation (work_view work.old) (work_view work.new) meanings.now (row_view first.now) parts.now) }
{
    refuted_bounds_conflict();
    fitting_sums_fit();
    fitting_steps_are_taken();
    past_sums_are_past();
    let shares = shares(alloc, &work.search, meanings, parts)?;
    if let Some(past) = step_past(alloc, &work.cnf.atoms, &shares)? {
        return Ok(Some(past_step(alloc, first, &shares, past)?));
    }
    let used = uses(alloc, &work.search, meanings, parts)?;
    if used.len() as u64 >= u32::MAX as u64 {
        return Err(SolveFault::Memory);
    }
    let step = conflict_step(alloc, &used)?;
    count_step(alloc, work, step)?;
    Ok(None)
}

/// Adds the clause that not both of two bounds that cross stand, and lists it.
pub fn crossed(
    alloc: Global,
    work: &mut Work,
    meanings: &[Meaning],
    first: u32,
    second: u32,
) -> Result<(), SolveFault>
    requires run { IsRun (work_view work.old) }
    requires refuted { AreRefuted (work_view work.old) meanings.now (both_parts first second) }
    requires near { All IsNear meanings.now }
    requires few { length meanings.now < 2 ^ 32 }
    requires meant { All HasMeanings (work_view work.old).form.atoms }
    ensures { OnOk result (IsCounted (work_view work.old) (work_view work.new)) }
{
    refuted_bounds_conflict();
    refuted_bounds_sum_to_nothing();
    fitting_sums_fit();
    fitting_steps_are_taken();
    let parts = vec![in alloc; (1, first), (1, second)]?;
    let used = uses(alloc, &work.search, meanings, &parts)?;
    let step = conflict_step(alloc, &used)?;
    count_step(alloc, work, step)
}

/// That the numbered atom or its opposite is true.
pub fn split_step(alloc: Global, number: u32) -> Result<Step, AllocError>
    ensures { IfOk result (λ s. (x : ℕ) (c : ℤ) → step_view s ≡ split_move number x c) }
{
    let opposite = Used {
        multiplier: 1,
        atom: number,
        sign: false,
        divisor: 1,
    };
    let itself = Used {
        multiplier: 1,
        atom: number,
        sign: true,
        divisor: 1,
    };
    let used = vec![in alloc; opposite, itself]?;
    conflict_step(alloc, &used)
}

/// `x <= c`
pub fn split_atom(alloc: Global, x: u32, c: i128) -> Result<Atom, AllocError>
    ensures { IfOk result (λ a. atom_view a ≡ atom_of_split (x, c)) }
{
    let mut terms = SmallVec::new(alloc);
    terms.push((x, 1))?;
    Ok(Atom { terms, bound: c })
}

/// Splits a number: `x <= c` becomes the atom behind the others, and the step that it or its opposite is
/// true is added with its clause.
///
/// The answer is want of memory also where the atoms can't be numbered by 32 bits.
pub fn split(
    alloc: Global,
    work: &mut Work,
    meanings: &mut Vec<Meaning>,
    x: u32,
    c: i128,
) -> Result<(), SolveFault>
    requires run { IsRun (work_view work.old) }
    requires plain { IsPlain (work_view work.old).form }
    requires number { slice_get (work_view work.old).form.shapes x ≡ Some Number }
    requires low { neg_ℤ (pos (2 ^ 126)) ≤ℤ c }
    requires high { c <ℤ pos (2 ^ 126) }
    requires meanings { AreMeaningsOf (work_view work.old).form meanings.old.items }
    ensures split { OnOk result
        (IsSplitOff x c (work_view work.old) (work_view work.new) meanings.new.items) }
    ensures meaning { OnOk result (meanings.new.items ≡ meanings.old.items ++ meaning_of_split x c ∷ []) }
{
    splits_are_taken();
    runs_grow();
    let count = work.cnf.atoms.len();
    if count as u64 >= u32::MAX as u64 {
        return Err(SolveFault::Memory);
    }
    let atom = split_atom(alloc, x, c)?;
    let step = split_step(alloc, count as u32 + 1)?;
    meanings.push(Meaning {
        column: x,
        upper: true,
        limit: c,
        divisor: 1,
    })?;
    work.cnf.atoms.push(atom)?;
    take_step(alloc, work, step)
}
