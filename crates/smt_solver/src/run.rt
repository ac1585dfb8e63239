//! The turns of a solver, up to an answer or the end of its budgets.

ghost use Rattle.std.specs.Prelude.{◌≤◌, suc, length, IfOk};
ghost use Rattle.smt_solver.specs.Kept.{IsKept, IsWithin, IsAtFull, IsAtFit, IsEnd, Turns, TurnsCounted, solver_view, own_form};

use crate::fault::SolveFault;
use crate::laws::{
    broken_numbers_split, listed_are_of_the_query, long_checks_are_long, past_checks_are_past,
    refutations_are_of_the_query,
};
use crate::numbers::looking::{Look, broken_value, look_at_numbers};
use crate::numbers::turns::split;
use crate::solver::Solver;
use crate::work::{last_step, learn};
use line_laws::laws::split_steps_fit;
use proof_steps::{Budgets, PastStep, Start};
use sat_core::Found;
use sat_core::laws::learnt_steps_are_accepted;
use std::alloc::Global;

/// How a run ends.
#[derive(Drop)]
pub enum End {
    /// The search's values and the tableau's satisfy each clause.
    Full,
    /// The steps refute the clauses.
    Empty,
    /// As many clauses as the budget allows were listed, and there is a conflict again.
    Conflicts,
    /// As many splits as the budget allows were made, and a value is not whole again.
    Splits,
    /// From this start Bland's rule makes more pivots than the budget.
    Pivots(Start),
    /// An operation is outside 128 bits.
    Past(PastStep),
}

// Splits the least number whose value is not whole, where the budget allows.
fn at_fit(alloc: Global, solver: &mut Solver, budgets: Budgets) -> Result<Option<End>, SolveFault>
    requires fit { IsAtFit (own_form (solver_view solver.old)) (solver_view solver.old) }
    requires within { IsWithin budgets (solver_view solver.old) }
    ensures { IfOk result
        (Turns (own_form (solver_view solver.old)) budgets (solver_view solver.old) (solver_view solver.new)) }
{
    broken_numbers_split();
    split_steps_fit();
    let (x, c) = match broken_value(&solver.tableau) {
        Some(broken) => broken,
        None => return Ok(Some(End::Full)),
    };
    if solver.pairs.len() as u64 >= budgets.splits {
        return Ok(Some(End::Splits));
    }
    split(alloc, &mut solver.work, &mut solver.meanings, x, c)?;
    solver.pairs.push((x, c))?;
    Ok(None)
}

// Goes on where the budget allows the clause that was listed last, and else takes it back.
fn counted(solver: &mut Solver, budgets: Budgets) -> Option<End>
    requires kept { IsKept (own_form (solver_view solver.old)) (solver_view solver.old) }
    requires listed { length (solver_view solver.old).work.listed ≤ suc budgets.conflicts }
    ensures { TurnsCounted (own_form (solver_view solver.old)) budgets (solver_view solver.old) (solver_view solver.new)
        result }
{
    listed_are_of_the_query();
    if solver.work.listed.len() as u64 <= budgets.conflicts {
        return None;
    }
    solver.work.listed.pop();
    Some(End::Conflicts)
}

// Looks for values of the numbers.
fn at_full(alloc: Global, solver: &mut Solver, budgets: Budgets) -> Result<Option<End>, SolveFault>
    requires full { IsAtFull (own_form (solver_view solver.old)) (solver_view solver.old) }
    requires within { IsWithin budgets (solver_view solver.old) }
    ensures { IfOk result
        (Turns (own_form (solver_view solver.old)) budgets (solver_view solver.old) (solver_view solver.new)) }
{
    long_checks_are_long();
    past_checks_are_past();
    if solver.meanings.len() as u64 >= u32::MAX as u64 {
        return Err(SolveFault::Memory);
    }
    let look = look_at_numbers(
        alloc,
        &mut solver.work,
        &mut solver.tableau,
        &solver.meanings,
        budgets.pivots,
    )?;
    match look {
        Look::Fits => at_fit(alloc, solver, budgets),
        Look::Counted => Ok(counted(solver, budgets)),
        Look::Pivots(start) => Ok(Some(End::Pivots(start))),
        Look::Past(step) => Ok(Some(End::Past(step))),
    }
}

// Searches on to the next conflict or full assignment, and learns or looks at the numbers.
fn turn(alloc: Global, solver: &mut Solver, budgets: Budgets) -> Result<Option<End>, SolveFault>
    requires kept { IsKept (own_form (solver_view solver.old)) (solver_view solver.old) }
    requires within { IsWithin budgets (solver_view solver.old) }
    ensures { IfOk result
        (Turns (own_form (solver_view solver.old)) budgets (solver_view solver.old) (solver_view solver.new)) }
{
    learnt_steps_are_accepted();
    listed_are_of_the_query();
    refutations_are_of_the_query();
    match solver.work.search.decide_or_conflict(alloc)? {
        Found::Full => at_full(alloc, solver, budgets),
        Found::Empty => {
            let step = last_step(alloc, solver.work.search.log())?;
            solver.work.steps.push(step)?;
            Ok(Some(End::Empty))
        }
        Found::Conflict => {
            if solver.work.listed.len() as u64 >= budgets.conflicts {
                return Ok(Some(End::Conflicts));
            }
            learn(alloc, &mut solver.work)?;
            Ok(None)
        }
    }
}

/// Turn after turn to the end. Each one that is not the last lists a clause more or makes a split.
pub fn run(alloc: Global, solver: &mut Solver, budgets: Budgets) -> Result<End, SolveFault>
    requires kept { IsKept (own_form (solver_view solver.old)) (solver_view solver.old) }
    requires within { IsWithin budgets (solver_view solver.old) }
    ensures { IfOk result (IsEnd (own_form (solver_view solver.old)) budgets (solver_view solver.new)) }
{
    loop {
        if let Some(end) = turn(alloc, solver, budgets)? {
            return Ok(end);
        }
    }
}
