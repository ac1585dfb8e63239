//! Whether refutations refute the queries that are asked of them.

ghost use Rattle.std.specs.Prelude.{◌≡◌, ◌<◌, ◌≤◌, ◌^◌, length, true};
ghost use Rattle.proof_steps.specs.View.{proof_view};
ghost use Rattle.sys_terms.specs.View.{term_view, terms_view, system_view, obligation_view};
ghost use Rattle.sys_terms.specs.Fits.{IsFit, is_asked, all_fit_one};
ghost use Rattle.cert_rules.specs.View.{proofs_view};
ghost use Rattle.cnf_maker.specs.View.{form_view};
ghost use Rattle.cert_rules.specs.Facts.{is_shallow};
ghost use Rattle.cert_rules.specs.Faults.{at_part, form_fault, has_property, is_term, are_terms, refutation_fault, bases_fault};
ghost use Rattle.cert_rules.specs.Answers.{Allows};
ghost use Rattle.cert_rules.specs.declared.fault.RuleFault.TheVariants.{Refused};

use crate::fault::RuleFault;
use cnf_maker::{Cnf, CnfFault, clauses};
use proof_checker::{Fault, Rule, check};
use proof_steps::Proof;
use std::alloc::Global;
use sys_terms::{Obligation, QueryFault, System, Term, obligation};

/// The most levels of a term that may be cited or posted.
const MOST_LEVELS: u32 = 5_000;

pub(crate) fn refused(part: u32, rule: Rule) -> RuleFault
    ensures { result ≡ Refused part rule }
{
    RuleFault::Refused { part, rule }
}

/// Whether the property is one of the system's.
pub(crate) fn has_property(system: &System, property: u32) -> bool
    ensures { result ≡ has_property (system_view system.now) property }
{
    (property as usize) < system.properties.len()
}

#[tactic(auto, unfolding(crate::specs::Facts::is_shallow))]
fn is_shallow(term: &Term) -> bool
    ensures { result ≡ is_shallow (term_view term.now) }
{
    term.is_within_levels(MOST_LEVELS)
}

/// Whether the term may be cited or posted: it fits, is over one state, has no weight above 2^63 and
/// at most 5,000 levels.
pub(crate) fn is_term(system: &System, term: &Term) -> bool
    ensures { result ≡ is_term (system_view system.now) (term_view term.now) }
{
    is_shallow(term) && term.fits(&system.shapes) && term.is_present() && term.is_light()
}

pub(crate) fn are_terms(system: &System, terms: &[Term]) -> bool
    ensures { result ≡ are_terms (system_view system.now) (terms_view terms.now) }
{
    for term in terms {
        if !is_term(system, term) {
            return false;
        }
    }
    true
}

/// Whether the proof refutes the clauses; else the first rule that it breaks, of this part.
fn judge(alloc: Global, part: u32, cnf: &Cnf, proof: &Proof) -> Result<(), RuleFault>
    ensures { Allows (at_part part (form_fault (Ok (form_view cnf.now)) (proof_view proof.now))) result }
{
    match check(alloc, &cnf.shapes, &cnf.atoms, &cnf.clauses, proof) {
        Ok(_) => Ok(()),
        Err(Fault::Step { rule, .. }) => Err(refused(part, rule)),
        Err(Fault::Open) => Err(refused(part, Rule::Open)),
        Err(Fault::Memory) => Err(RuleFault::Memory),
    }
}

/// Whether the proof refutes the query of the obligation; else the first rule that it breaks, of this
/// part. The clause form is made once and handed on to the checker.
pub(crate) fn refute(
    alloc: Global,
    system: &System,
    part: u32,
    what: &Obligation,
    cites: &[Term],
    proof: &Proof,
) -> Result<(), RuleFault>
    requires fit { IsFit (system_view system.now) }
    requires few { length (system_view system.now).shapes < 2 ^ 32 }
    requires asked { is_asked (system_view system.now) (obligation_view what.now) ≡ true }
    requires cited { all_fit_one (system_view system.now).shapes (terms_view cites.now) ≡ true }
    ensures { Allows (at_part part (refutation_fault (system_view system.now) (obligation_view what.now)
        (terms_view cites.now) (proof_view proof.now))) result }
{
    let query = match obligation(alloc, system, what, cites) {
        Ok(query) => query,
        Err(QueryFault::Memory) => return Err(RuleFault::Memory),
    };
    match clauses(alloc, &query) {
        Ok(cnf) => judge(alloc, part, &cnf, proof),
        Err(CnfFault::Past(_)) => Err(refused(part, Rule::Past)),
        Err(CnfFault::Memory) => Err(RuleFault::Memory),
    }
}

/// Whether the proofs refute the bases of the instants from 0 on, one each.
pub(crate) fn refute_bases(
    alloc: Global,
    system: &System,
    property: u32,
    cites: &[Term],
    proofs: &[Proof],
) -> Result<(), RuleFault>
    requires fit { IsFit (system_view system.now) }
    requires few { length (system_view system.now).shapes < 2 ^ 32 }
    requires named { has_property (system_view system.now) property ≡ true }
    requires cited { all_fit_one (system_view system.now).shapes (terms_view cites.now) ≡ true }
    requires numbered { length proofs.now ≤ 2 ^ 32 }
    ensures { Allows (bases_fault (system_view system.now) property
        (terms_view cites.now) 0 (proofs_view proofs.now)) result }
{
    for i in 0..proofs.len() {
        let instant = i as u32;
        let what = Obligation::Base { property, instant };
        refute(alloc, system, instant, &what, cites, &proofs[i])?;
    }
    Ok(())
}
