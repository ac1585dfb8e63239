//! Whether all of some formulas are true, and whether one is.

ghost use Rattle.std.specs.Prelude.{◌≡◌, IfOk};
ghost use Rattle.sys_meaning.specs.Part.{all_after, all_of, some_after, some_of};
ghost use Rattle.sys_meaning.specs.Part as p;
ghost use Rattle.sys_terms.specs.View.{term_view, terms_view};
ghost use Rattle.sys_terms.specs.View as t;

use crate::formulas::{both, either};
use std::alloc::{AllocError, Global};
use sys_terms::Term;

/// That a formula and another, which is copied, are true.
fn and_copy(alloc: Global, all: Term, term: &Term) -> Result<Term, AllocError>
    ensures { IfOk result (λ r. term_view r ≡ t.both (term_view all) (term_view term.now)) }
{
    let copy = term.copied(alloc)?;
    both(alloc, all, copy)
}

/// That a formula and all of these are true.
fn all_after(alloc: Global, first: Term, rest: &[Term]) -> Result<Term, AllocError>
    ensures { IfOk result (λ r. term_view r ≡ all_after (term_view first) (terms_view rest.now)) }
{
    let mut all = first;
    for term in rest {
        all = and_copy(alloc, all, term)?;
    }
    Ok(all)
}

/// That all are true.
///
/// # Errors
///
/// Want of memory.
pub fn all_of(alloc: Global, terms: &[Term]) -> Result<Term, AllocError>
    ensures { IfOk result (λ r. term_view r ≡ all_of (terms_view terms.now)) }
{
    match terms {
        [] => Ok(Term::Truth(true)),
        [first, rest @ ..] => {
            let first = first.copied(alloc)?;
            all_after(alloc, first, rest)
        }
    }
}

/// That a formula or another, which is copied, is true.
fn or_copy(alloc: Global, some: Term, term: &Term) -> Result<Term, AllocError>
    ensures { IfOk result (λ r. term_view r ≡ p.either (term_view some) (term_view term.now)) }
{
    let copy = term.copied(alloc)?;
    either(alloc, some, copy)
}

/// That a formula or one of these is true.
fn some_after(alloc: Global, first: Term, rest: &[Term]) -> Result<Term, AllocError>
    ensures { IfOk result (λ r. term_view r ≡ some_after (term_view first) (terms_view rest.now)) }
{
    let mut some = first;
    for term in rest {
        some = or_copy(alloc, some, term)?;
    }
    Ok(some)
}

/// That one is true.
///
/// # Errors
///
/// Want of memory.
pub fn some_of(alloc: Global, terms: &[Term]) -> Result<Term, AllocError>
    ensures { IfOk result (λ r. term_view r ≡ some_of (terms_view terms.now)) }
{
    match terms {
        [] => Ok(Term::Truth(false)),
        [first, rest @ ..] => {
            let first = first.copied(alloc)?;
            some_after(alloc, first, rest)
        }
    }
}
