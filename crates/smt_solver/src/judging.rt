//! Whether a proof refutes a form, and whether values meet a query, whoever found them.

ghost use Rattle.std.specs.Prelude.{◌≡◌, ◌↔◌, true, IfOk};
ghost use Rattle.proof_steps.specs.View.{proof_view};
ghost use Rattle.sys_terms.specs.View.{term_view, terms_view, state_view, query_view};
ghost use Rattle.sys_terms.specs.Evaluated.{evaluated_at};
ghost use Rattle.sys_terms.specs.Fits.{is_divided, all_divided, all_fit_one, entry_fits, state_fits};
ghost use Rattle.cnf_maker.specs.View.{form_view};
ghost use Rattle.smt_solver.specs.Judging.{Refutes, holds, all_hold, is_met_by};

use crate::fault::SolveFault;
use cnf_maker::Cnf;
use kind_num::Shape;
use proof_checker::{Fault, check};
use proof_steps::Proof;
use std::alloc::Global;
use sys_terms::{Entry, Query, State, Term, eval};

/// Whether the checker accepts the proof for exactly this form.
pub fn is_refuted(alloc: Global, cnf: &Cnf, proof: &Proof) -> Result<bool, SolveFault>
    ensures { IfOk result (λ yes. (yes ≡ true) ↔ Refutes (form_view cnf.now) (proof_view proof.now)) }
{
    match check(alloc, &cnf.shapes, &cnf.atoms, &cnf.clauses, proof) {
        Ok(_) => Ok(true),
        Err(Fault::Memory) => Err(SolveFault::Memory),
        Err(Fault::Step { .. }) | Err(Fault::Open) => Ok(false),
    }
}

fn fits(shape: Shape, entry: Entry) -> bool
    ensures { result ≡ entry_fits shape entry }
{
    match (shape, entry) {
        (Shape::Flag, Entry::Flag(_)) => true,
        (Shape::Number, Entry::Number(_)) => true,
        _ => false,
    }
}

fn all_fit(shapes: &[Shape], values: &[Entry]) -> bool
    ensures { result ≡ state_fits shapes.now values.now }
{
    if shapes.len() != values.len() {
        return false;
    }
    for i in 0..shapes.len() {
        if !fits(shapes[i], values[i]) {
            return false;
        }
    }
    true
}

// Whether the term is true of the values, all its operations being within 128 bits.
fn is_true(term: &Term, values: &State) -> bool
    requires { is_divided (term_view term.now) ≡ true }
    ensures { result ≡ holds (evaluated_at (state_view values.now) (state_view values.now) (term_view term.now)) }
{
    match eval(term, values, values) {
        Ok(truth) => truth,
        Err(_) => false,
    }
}

fn are_true(terms: &[Term], values: &State) -> bool
    requires { all_divided (terms_view terms.now) ≡ true }
    ensures { result ≡ all_hold (state_view values.now) (terms_view terms.now) }
{
    for term in terms {
        if !is_true(term, values) {
            return false;
        }
    }
    true
}

/// Whether the values are of the query's shapes and each condition is true of them. Where an operation of a
/// condition is outside 128 bits, the answer is no.
#[tactic(auto, using(sys_terms::proofs::Divided::all_fit_one_divided))]
pub fn is_met(query: &Query, values: &State) -> bool
    requires { all_fit_one (query_view query.now).shapes (query_view query.now).conditions ≡ true }
    ensures { result ≡ is_met_by (query_view query.now) (state_view values.now) }
{
    all_fit(&query.shapes, &values.values) && are_true(&query.conditions, values)
}
