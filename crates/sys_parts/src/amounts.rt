//! Numbers made of smaller ones, and comparisons of them.

ghost use Rattle.std.specs.Prelude.{◌≡◌, IfOk};
ghost use Rattle.sys_terms.specs.View.{at_most, chosen, equal, minus, multiple, num_view, plus, quotient, remainder, term_view};
ghost use Rattle.sys_terms.specs.View as t;

use crate::formulas::{boxed, negation};
use std::alloc::{AllocError, Global};
use sys_terms::{Num, Term};

/// A number in a box.
fn boxed_num(alloc: Global, num: Num) -> Result<Box<Num>, AllocError>
    ensures { IfOk result (λ b. num_view b.value ≡ num_view num) }
{
    Ok(Box::new(alloc, num)?)
}

/// The sum.
///
/// # Errors
///
/// Want of memory.
pub fn plus(alloc: Global, a: Num, b: Num) -> Result<Num, AllocError>
    ensures { IfOk result (λ r. num_view r ≡ plus (num_view a) (num_view b)) }
{
    match (boxed_num(alloc, a), boxed_num(alloc, b)) {
        (Ok(a), Ok(b)) => Ok(Num::Add(a, b)),
        _ => Err(AllocError),
    }
}

/// The difference.
///
/// # Errors
///
/// Want of memory.
pub fn minus(alloc: Global, a: Num, b: Num) -> Result<Num, AllocError>
    ensures { IfOk result (λ r. num_view r ≡ minus (num_view a) (num_view b)) }
{
    match (boxed_num(alloc, a), boxed_num(alloc, b)) {
        (Ok(a), Ok(b)) => Ok(Num::Sub(a, b)),
        _ => Err(AllocError),
    }
}

/// The product with a constant.
///
/// # Errors
///
/// Want of memory.
pub fn multiple(alloc: Global, factor: i128, a: Num) -> Result<Num, AllocError>
    ensures { IfOk result (λ r. num_view r ≡ multiple factor (num_view a)) }
{
    Ok(Num::Scale(factor, boxed_num(alloc, a)?))
}

/// The quotient by a constant.
///
/// # Errors
///
/// Want of memory.
pub fn quotient(alloc: Global, a: Num, divisor: i128) -> Result<Num, AllocError>
    ensures { IfOk result (λ r. num_view r ≡ quotient (num_view a) divisor) }
{
    Ok(Num::Div(boxed_num(alloc, a)?, divisor))
}

/// The remainder by a constant.
///
/// # Errors
///
/// Want of memory.
pub fn remainder(alloc: Global, a: Num, divisor: i128) -> Result<Num, AllocError>
    ensures { IfOk result (λ r. num_view r ≡ remainder (num_view a) divisor) }
{
    Ok(Num::Mod(boxed_num(alloc, a)?, divisor))
}

/// The second where the first is true, else the third.
///
/// # Errors
///
/// Want of memory.
pub fn chosen(alloc: Global, c: Term, a: Num, b: Num) -> Result<Num, AllocError>
    ensures { IfOk result (λ r. num_view r ≡ chosen (term_view c) (num_view a) (num_view b)) }
{
    match (boxed(alloc, c), boxed_num(alloc, a), boxed_num(alloc, b)) {
        (Ok(c), Ok(a), Ok(b)) => Ok(Num::Choose(c, a, b)),
        _ => Err(AllocError),
    }
}

/// That the first is at most the second.
///
/// # Errors
///
/// Want of memory.
pub fn at_most(alloc: Global, a: Num, b: Num) -> Result<Term, AllocError>
    ensures { IfOk result (λ r. term_view r ≡ at_most (num_view a) (num_view b)) }
{
    match (boxed_num(alloc, a), boxed_num(alloc, b)) {
        (Ok(a), Ok(b)) => Ok(Term::AtMost(a, b)),
        _ => Err(AllocError),
    }
}

/// That the two are equal.
///
/// # Errors
///
/// Want of memory.
pub fn equal(alloc: Global, a: Num, b: Num) -> Result<Term, AllocError>
    ensures { IfOk result (λ r. term_view r ≡ equal (num_view a) (num_view b)) }
{
    match (boxed_num(alloc, a), boxed_num(alloc, b)) {
        (Ok(a), Ok(b)) => Ok(Term::Equal(a, b)),
        _ => Err(AllocError),
    }
}

/// That the first is more than the second.
///
/// # Errors
///
/// Want of memory.
pub fn more(alloc: Global, a: Num, b: Num) -> Result<Term, AllocError>
    ensures { IfOk result (λ r. term_view r ≡ t.negation (at_most (num_view a) (num_view b))) }
{
    let most = at_most(alloc, a, b)?;
    negation(alloc, most)
}
