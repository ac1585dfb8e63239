//! Formulas made of smaller ones.

ghost use Rattle.std.specs.Prelude.{◌≡◌, IfOk, false};
ghost use Rattle.sys_meaning.specs.Part.{either, implies};
ghost use Rattle.sys_terms.specs.View.{both, same, term_view};
ghost use Rattle.sys_terms.specs.View as t;

use std::alloc::{AllocError, Global};
use sys_terms::{Term, Var};

/// A term in a box.
pub(crate) fn boxed(alloc: Global, term: Term) -> Result<Box<Term>, AllocError>
    ensures { IfOk result (λ b. term_view b.value ≡ term_view term) }
{
    Ok(Box::new(alloc, term)?)
}

/// A variable of this state.
pub fn flag(number: u32) -> Term
    ensures { term_view result ≡ t.flag record { number = number; next = false } }
{
    Term::Flag(Var {
        number,
        next: false,
    })
}

/// That it is false.
///
/// # Errors
///
/// Want of memory.
pub fn negation(alloc: Global, a: Term) -> Result<Term, AllocError>
    ensures { IfOk result (λ r. term_view r ≡ t.negation (term_view a)) }
{
    Ok(Term::Not(boxed(alloc, a)?))
}

/// That both are true.
///
/// # Errors
///
/// Want of memory.
pub fn both(alloc: Global, a: Term, b: Term) -> Result<Term, AllocError>
    ensures { IfOk result (λ r. term_view r ≡ both (term_view a) (term_view b)) }
{
    match (boxed(alloc, a), boxed(alloc, b)) {
        (Ok(a), Ok(b)) => Ok(Term::And(a, b)),
        _ => Err(AllocError),
    }
}

/// That the two are equal.
///
/// # Errors
///
/// Want of memory.
pub fn same(alloc: Global, a: Term, b: Term) -> Result<Term, AllocError>
    ensures { IfOk result (λ r. term_view r ≡ same (term_view a) (term_view b)) }
{
    match (boxed(alloc, a), boxed(alloc, b)) {
        (Ok(a), Ok(b)) => Ok(Term::Same(a, b)),
        _ => Err(AllocError),
    }
}

/// The second where the first is true, else the third.
///
/// # Errors
///
/// Want of memory.
pub fn choice(alloc: Global, c: Term, a: Term, b: Term) -> Result<Term, AllocError>
    ensures { IfOk result (λ r. term_view r ≡ t.choice (term_view c) (term_view a) (term_view b)) }
{
    match (boxed(alloc, c), boxed(alloc, a), boxed(alloc, b)) {
        (Ok(c), Ok(a), Ok(b)) => Ok(Term::Choose(c, a, b)),
        _ => Err(AllocError),
    }
}

/// That the two are not both true.
fn not_both(alloc: Global, a: Term, b: Term) -> Result<Term, AllocError>
    ensures { IfOk result (λ r. term_view r ≡ t.negation (both (term_view a) (term_view b))) }
{
    let all = both(alloc, a, b)?;
    negation(alloc, all)
}

/// That one of the two is true.
///
/// # Errors
///
/// Want of memory.
pub fn either(alloc: Global, a: Term, b: Term) -> Result<Term, AllocError>
    ensures { IfOk result (λ r. term_view r ≡ either (term_view a) (term_view b)) }
{
    match (negation(alloc, a), negation(alloc, b)) {
        (Ok(a), Ok(b)) => not_both(alloc, a, b),
        _ => Err(AllocError),
    }
}

/// That the second is true where the first is.
///
/// # Errors
///
/// Want of memory.
pub fn implies(alloc: Global, a: Term, b: Term) -> Result<Term, AllocError>
    ensures { IfOk result (λ r. term_view r ≡ implies (term_view a) (term_view b)) }
{
    let b = negation(alloc, b)?;
    not_both(alloc, a, b)
}

/// That the two are not equal.
///
/// # Errors
///
/// Want of memory.
pub fn different(alloc: Global, a: Term, b: Term) -> Result<Term, AllocError>
    ensures { IfOk result (λ r. term_view r ≡ t.negation (same (term_view a) (term_view b))) }
{
    let equal = same(alloc, a, b)?;
    negation(alloc, equal)
}
