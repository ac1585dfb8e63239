//! A solver at work on a form.

ghost use Rattle.std.specs.Prelude.{◌≡◌, ◌<◌, ◌++◌, ◌∷◌, [], List, true, length, map, suc, OnOk, IfOk};
ghost use Rattle.proof_steps.specs.View.{Move, added, clause_view, step_view};
ghost use Rattle.cnf_maker.specs.View.{AreFew, form_view};
ghost use Rattle.sat_core.specs.Shown.{Adds, variables_of};
ghost use Rattle.smt_solver.specs.Growing.{IsTaken, SaysMore};
ghost use Rattle.smt_solver.specs.Run.{AreFit, IsRun, work_view};

use crate::fault::SolveFault;
use cnf_maker::Cnf;
use proof_steps::{Clause, Step};
use sat_core::Search;
use sat_core::laws::learnt_steps_are_accepted;
use std::alloc::{AllocError, Global};

/// A form, the search over it, the steps of its proof so far, and the clauses that count as
/// conflicts.
#[derive(Drop)]
pub struct Work {
    pub cnf: Cnf,
    pub search: Search,
    pub steps: Vec<Step>,
    pub listed: Vec<Clause>,
}

/// Work on a form of which nothing is done.
pub fn begun(alloc: Global, cnf: Cnf) -> Result<Work, SolveFault>
    requires few { AreFew (form_view cnf) }
    requires fit { AreFit (form_view cnf) (form_view cnf).clauses }
    ensures form { IfOk result (λ w. (work_view w).form ≡ form_view cnf) }
    ensures run { IfOk result (λ w. IsRun (work_view w)) }
    ensures none { IfOk result (λ w. (work_view w).listed ≡ []) }
    ensures variables { IfOk result (λ w. (work_view w).search.variables ≡ variables_of (form_view cnf)) }
{
    let search = Search::new(alloc, &cnf)?;
    Ok(Work {
        cnf,
        search,
        steps: Vec::new(alloc),
        listed: Vec::new(alloc),
    })
}

/// A copy of the last step.
pub fn last_step(alloc: Global, log: &[Step]) -> Result<Step, AllocError>
    requires { 0 < length log.now }
    ensures { IfOk result (λ s. (before : List Move) (m : Move) → map step_view log.now ≡ before ++ m ∷ []
        → step_view s ≡ m) }
{
    log[log.len() - 1].copied(alloc)
}

/// The clause that the step adds.
pub fn added_clause(step: &Step) -> &Clause
    ensures { clause_view result.now ≡ added (step_view step.now) }
{
    match step {
        Step::Derived { clause, .. } => clause,
        Step::Theory { clause, .. } => clause,
    }
}

/// Learns from a conflict, and lists what was learnt.
pub fn learn(alloc: Global, work: &mut Work) -> Result<(), SolveFault>
    requires conflict { work.old.search.in_conflict ≡ true }
    requires run { IsRun (work_view work.old) }
    ensures form { OnOk result ((work_view work.new).form ≡ (work_view work.old).form) }
    ensures run { OnOk result (IsRun (work_view work.new)) }
    ensures more { OnOk result (length (work_view work.new).listed ≡ suc (length (work_view work.old).listed)) }
    ensures variables { OnOk result ((work_view work.new).search.variables ≡ (work_view work.old).search.variables) }
{
    learnt_steps_are_accepted();
    work.search.learn(alloc)?;
    let step = last_step(alloc, work.search.log())?;
    let clause = added_clause(&step).copied(alloc)?;
    work.listed.push(clause)?;
    work.steps.push(step)?;
    Ok(())
}

/// Adds a theory step that breaks no rule, with its clause.
pub fn take_step(alloc: Global, work: &mut Work, step: Step) -> Result<(), SolveFault>
    requires run { IsRun (work_view work.old) }
    requires taken { IsTaken (work_view work.old) (step_view step) }
    ensures run { OnOk result (IsRun (work_view work.new)) }
    ensures form { OnOk result ((work_view work.new).form ≡ (work_view work.old).form) }
    ensures listed { OnOk result ((work_view work.new).listed ≡ (work_view work.old).listed) }
    ensures search { OnOk result
        (Adds (work_view work.old).search (work_view work.new).search (added (step_view step))) }
{
    work.search.add(alloc, added_clause(&step))?;
    work.steps.push(step)?;
    Ok(())
}

/// Adds a theory step that breaks no rule, with its clause, which says something new and is listed as a
/// conflict.
pub fn count_step(alloc: Global, work: &mut Work, step: Step) -> Result<(), SolveFault>
    requires run { IsRun (work_view work.old) }
    requires taken { IsTaken (work_view work.old) (step_view step) }
    requires says_more { SaysMore (work_view work.old).search.known (added (step_view step)) }
    ensures run { OnOk result (IsRun (work_view work.new)) }
    ensures form { OnOk result ((work_view work.new).form ≡ (work_view work.old).form) }
    ensures more { OnOk result (length (work_view work.new).listed ≡ suc (length (work_view work.old).listed)) }
    ensures search { OnOk result
        (Adds (work_view work.old).search (work_view work.new).search (added (step_view step))) }
{
    let clause = added_clause(&step).copied(alloc)?;
    work.search.add(alloc, &clause)?;
    work.listed.push(clause)?;
    work.steps.push(step)?;
    Ok(())
}
