//! Answers to obligations.

ghost use Rattle.std.specs.Prelude.{◌≡◌, ◌≢◌, ◌<◌, ◌≤◌, ◌*◌, ◌^◌, Ok, Err, suc, true, map, length, IfOk};
ghost use Rattle.kind_num.specs.declared.Past.{Past as Operands};
ghost use Rattle.proof_steps.specs.Bounds.{split_atom as atom_of_split};
ghost use Rattle.proof_steps.specs.View.{atom_view, proof_view};
ghost use Rattle.sys_terms.specs.View.{terms_view, system_view, obligation_view, query_view};
ghost use Rattle.sys_terms.specs.Fits.{IsMild, is_asked, is_light_task, has_states, all_fit_one, all_light};
ghost use Rattle.sys_terms.specs.Queries.{query_of, last_of};
ghost use Rattle.cnf_maker.specs.ClauseForm.{clause_form};
ghost use Rattle.cnf_maker.specs.Plain.{IsMadeSmall};
ghost use Rattle.cnf_maker.specs.View.{AreFew, form_view};
ghost use Rattle.smt_solver.specs.View.{answer_view};
ghost use Rattle.smt_solver.specs.Answered.{IsAnswered, IsTrueOver, HasNoAtoms, StopsByConflicts};
ghost use Rattle.smt_solver.specs.Judging.{IsVerdictIf, Judges, JudgesProof, JudgesValues};
ghost use Rattle.smt_solver.specs.Kept.{HasEnded, solver_view};

use crate::answer::Answer;
use crate::attempt::outcome::Attempt;
use crate::attempt::turns::attempted;
use crate::fault::SolveFault;
use crate::judging::{is_met, is_refuted};
use crate::laws::{clauses_fit_their_form, met_values_meet, stops_need_atoms, whole_values_meet};
use crate::numbers::turns::split_atom;
use crate::run::{End, run};
use crate::solver::{Solver, ordered};
use crate::states::{entries, states};
use crate::work::Work;
use cnf_maker::laws::mild_queries_have_small_forms;
use cnf_maker::{Cnf, CnfFault, clauses};
use proof_steps::{Atom, Budgets, Proof, Stop};
use std::alloc::{AllocError, Global};
use sys_terms::{Entry, Obligation, Query, State, System, Term, obligation};

/// How many states the obligation speaks of.
fn state_count(what: &Obligation) -> u64
    requires { has_states (obligation_view what.now) ≡ true }
    ensures { result ≡ suc (last_of (obligation_view what.now)) }
{
    match what {
        Obligation::Base { instant, .. } => *instant as u64 + 1,
        Obligation::Step { k, .. } => *k as u64 + 1,
        Obligation::LemmaFirst(_) | Obligation::Implied { .. } => 1,
        Obligation::LemmaNext(_) => 2,
        Obligation::Open { states, .. } => *states as u64,
    }
}

/// The clause form of a query whose numbers stay within 128 bits.
fn made(alloc: Global, query: &Query) -> Result<Cnf, SolveFault>
    requires { (past : Operands) → clause_form (query_view query.now) ≢ Err past }
    ensures exact { IfOk result (λ c. clause_form (query_view query.now) ≡ Ok (form_view c)) }
    ensures few { IfOk result (λ c. AreFew (form_view c)) }
{
    match clauses(alloc, query) {
        Ok(cnf) => Ok(cnf),
        Err(CnfFault::Memory) => Err(SolveFault::Memory),
        Err(CnfFault::Past(_)) => unreachable!(),
    }
}

// The atoms `x <= c` of the splits.
fn split_atoms(alloc: Global, pairs: &[(u32, i128)]) -> Result<Vec<Atom>, AllocError>
    ensures { IfOk result (λ v. map atom_view v.items ≡ map atom_of_split pairs.now) }
{
    let mut atoms = Vec::new(alloc);
    for pair in pairs {
        atoms.push(split_atom(alloc, pair.0, pair.1)?)?;
    }
    Ok(atoms)
}

// The answer that the end of a run gives.
fn ended(
    alloc: Global,
    query: &Query,
    size: usize,
    count: u64,
    budgets: Budgets,
    solver: Solver,
    end: End,
) -> Result<Answer, SolveFault>
    requires few { length (query_view query.now).shapes < 2 ^ 32 }
    requires room { count * size ≤ length (query_view query.now).shapes }
    requires fit { all_fit_one (query_view query.now).shapes (query_view query.now).conditions ≡ true }
    requires ended { HasEnded (query_view query.now) budgets (solver_view solver) end }
    ensures answer { IfOk result (λ a. IsTrueOver (query_view query.now) size count budgets (answer_view a)) }
    ensures stops { IfOk result (λ a. HasNoAtoms (query_view query.now) → StopsByConflicts (answer_view a)) }
{
    whole_values_meet();
    stops_need_atoms();
    let Solver {
        work,
        tableau,
        meanings: _meanings,
        pairs,
    } = solver;
    let Work {
        cnf: _cnf,
        search,
        steps,
        listed,
    } = work;
    match end {
        End::Full => {
            let values = entries(alloc, &search, &tableau, &query.shapes)?;
            Ok(Answer::Sat(states(alloc, &values, size, count)?))
        }
        End::Empty => {
            let atoms = split_atoms(alloc, &pairs)?;
            Ok(Answer::Unsat(Proof { atoms, steps }))
        }
        End::Conflicts => Ok(Answer::Stop(Stop::Conflicts(listed, pairs))),
        End::Splits => Ok(Answer::Stop(Stop::Splits(pairs))),
        End::Pivots(start) => Ok(Answer::Stop(Stop::Pivots(start, pairs))),
        End::Past(step) => Ok(Answer::Stop(Stop::Past(step, pairs))),
    }
}

// The answer of a run over the query's form.
fn ran(
    alloc: Global,
    query: &Query,
    cnf: Cnf,
    size: usize,
    count: u64,
    budgets: Budgets,
) -> Result<Answer, SolveFault>
    requires few { length (query_view query.now).shapes < 2 ^ 32 }
    requires room { count * size ≤ length (query_view query.now).shapes }
    requires fit { all_fit_one (query_view query.now).shapes (query_view query.now).conditions ≡ true }
    requires small { IsMadeSmall (query_view query.now) }
    requires form { clause_form (query_view query.now) ≡ Ok (form_view cnf) }
    requires few_in_form { AreFew (form_view cnf) }
    ensures answer { IfOk result (λ a. IsTrueOver (query_view query.now) size count budgets (answer_view a)) }
    ensures stops { IfOk result (λ a. HasNoAtoms (query_view query.now) → StopsByConflicts (answer_view a)) }
{
    clauses_fit_their_form();
    let mut solver = ordered(alloc, cnf)?;
    let end = run(alloc, &mut solver, budgets)?;
    ended(alloc, query, size, count, budgets, solver, end)
}

// The proof, where the checker accepts it for exactly this form.
fn judged_proof(alloc: Global, cnf: &Cnf, proof: Proof) -> Result<Option<Answer>, SolveFault>
    ensures { IfOk result (JudgesProof (form_view cnf.now) (proof_view proof)) }
{
    if is_refuted(alloc, cnf, &proof)? {
        return Ok(Some(Answer::Unsat(proof)));
    }
    Ok(None)
}

// The states that the values make, where they meet the query.
fn judged_values(
    alloc: Global,
    query: &Query,
    size: usize,
    count: u64,
    values: Vec<Entry>,
) -> Result<Option<Answer>, SolveFault>
    requires room { count * size ≤ length (query_view query.now).shapes }
    requires fit { all_fit_one (query_view query.now).shapes (query_view query.now).conditions ≡ true }
    ensures { IfOk result (JudgesValues (query_view query.now) size count values.items) }
{
    let values = State { values };
    if !is_met(query, &values) {
        return Ok(None);
    }
    Ok(Some(Answer::Sat(states(alloc, &values.values, size, count)?)))
}

// What was found, where it is what it is said to be.
fn judged(
    alloc: Global,
    query: &Query,
    cnf: &Cnf,
    size: usize,
    count: u64,
    found: Option<Attempt>,
) -> Result<Option<Answer>, SolveFault>
    requires room { count * size ≤ length (query_view query.now).shapes }
    requires fit { all_fit_one (query_view query.now).shapes (query_view query.now).conditions ≡ true }
    ensures exact { IfOk result (Judges (query_view query.now) size count (form_view cnf.now) found) }
    ensures verdict { IfOk result (IsVerdictIf (query_view query.now) size count (form_view cnf.now)) }
{
    met_values_meet();
    match found {
        None => Ok(None),
        Some(Attempt::Refuted(proof)) => judged_proof(alloc, cnf, proof),
        Some(Attempt::Found(values)) => judged_values(alloc, query, size, count, values),
    }
}

/// Answers a query over `count` states of `size` variables each.
fn answered(
    alloc: Global,
    query: &Query,
    size: usize,
    count: u64,
    budgets: Budgets,
) -> Result<Answer, SolveFault>
    requires few { length (query_view query.now).shapes < 2 ^ 32 }
    requires room { count * size ≤ length (query_view query.now).shapes }
    requires fit { all_fit_one (query_view query.now).shapes (query_view query.now).conditions ≡ true }
    requires small { IsMadeSmall (query_view query.now) }
    ensures answer { IfOk result (λ a. IsTrueOver (query_view query.now) size count budgets (answer_view a)) }
    ensures stops { IfOk result (λ a. HasNoAtoms (query_view query.now) → StopsByConflicts (answer_view a)) }
{
    let cnf = made(alloc, query)?;
    let attempt = attempted(alloc, &cnf, &query.shapes, budgets)?;
    let verdict = judged(alloc, query, &cnf, size, count, attempt)?;
    match verdict {
        Some(answer) => Ok(answer),
        None => ran(alloc, query, cnf, size, count, budgets),
    }
}

/// Answers the obligation with the cited lemmas.
///
/// `Unsat` has a proof that the checker accepts for the clause form of exactly this query; `Sat` has
/// states that answer the obligation with no, each of which meets the cited lemmas; `Stop` is true of
/// the query with these budgets. Where the query has no atom it is `Stop::Conflicts`, with as many
/// learnt clauses as the budget says: `laws::boolean_queries_have_no_atoms` says where. The answer is a
/// fault where memory runs out, or where variables, atoms, conditions or clauses can't be numbered by
/// 32 bits.
///
/// The system is mild, and the terms of the obligation and of the lemmas fit it and have no weight
/// above 2^63.
pub fn solve(
    alloc: Global,
    system: &System,
    what: &Obligation,
    cites: &[Term],
    budgets: Budgets,
) -> Result<Answer, SolveFault>
    requires mild { IsMild (system_view system.now) }
    requires few { length (system_view system.now).shapes < 2 ^ 32 }
    requires asked { is_asked (system_view system.now) (obligation_view what.now) ≡ true }
    requires cited { all_fit_one (system_view system.now).shapes (terms_view cites.now) ≡ true }
    requires light_task { is_light_task (obligation_view what.now) ≡ true }
    requires light_cites { all_light (terms_view cites.now) ≡ true }
    ensures answer { IfOk result (λ a. IsAnswered (system_view system.now) (obligation_view what.now)
        (terms_view cites.now) budgets (answer_view a)) }
    ensures stops { IfOk result (λ a.
        HasNoAtoms (query_of (system_view system.now) (obligation_view what.now) (terms_view cites.now))
        → StopsByConflicts (answer_view a)) }
{
    mild_queries_have_small_forms();
    let query = obligation(alloc, system, what, cites)?;
    answered(
        alloc,
        &query,
        system.shapes.len(),
        state_count(what),
        budgets,
    )
}
