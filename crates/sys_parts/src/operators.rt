//! Operators without a constant operand.

ghost use Rattle.std.specs.Prelude.{◌≡◌, IfOk};
ghost use Rattle.lus_tree.specs.declared.expression.Operator.TheVariants.{Differs};
ghost use Rattle.sys_meaning.specs.Part.{a_flag, a_number, operate};
ghost use Rattle.sys_terms.specs.View.{num_view, term_view};
ghost use Rattle.sys_parts.specs.Parts.{operate_unlike, part_view};

use crate::amounts::{at_most, equal, minus, more, plus};
use crate::formulas::{both, different, either, implies, negation, same};
use crate::parts::{Part, flag_part, no_part, number_part};
use lus_tree::Operator;
use std::alloc::{AllocError, Global};
use sys_terms::{Num, Term};

/// An operator on truth values.
fn on_flags(alloc: Global, operator: Operator, a: Term, b: Term) -> Result<Part, AllocError>
    ensures { IfOk result (λ r. part_view r ≡ operate operator (a_flag (term_view a)) (a_flag (term_view b))) }
{
    match operator {
        Operator::Implies => flag_part(implies(alloc, a, b)),
        Operator::Or => flag_part(either(alloc, a, b)),
        Operator::And => flag_part(both(alloc, a, b)),
        Operator::Equal => flag_part(same(alloc, a, b)),
        Operator::Xor | Operator::Differs => flag_part(different(alloc, a, b)),
        Operator::Less
        | Operator::AtMost
        | Operator::AtLeast
        | Operator::More
        | Operator::Add
        | Operator::Sub
        | Operator::Mul
        | Operator::Div
        | Operator::Mod => Ok(no_part()),
    }
}

/// That the two are not equal.
fn unequal(alloc: Global, a: Num, b: Num) -> Result<Term, AllocError>
    ensures { IfOk result (λ r. a_flag (term_view r) ≡ operate Differs (a_number (num_view a))
        (a_number (num_view b))) }
{
    let equal = equal(alloc, a, b)?;
    negation(alloc, equal)
}

/// An operator on numbers.
fn on_numbers(alloc: Global, operator: Operator, a: Num, b: Num) -> Result<Part, AllocError>
    ensures { IfOk result (λ r. part_view r ≡ operate operator (a_number (num_view a)) (a_number (num_view b))) }
{
    match operator {
        Operator::Less => flag_part(more(alloc, b, a)),
        Operator::AtMost => flag_part(at_most(alloc, a, b)),
        Operator::Equal => flag_part(equal(alloc, a, b)),
        Operator::Differs => flag_part(unequal(alloc, a, b)),
        Operator::AtLeast => flag_part(at_most(alloc, b, a)),
        Operator::More => flag_part(more(alloc, a, b)),
        Operator::Add => number_part(plus(alloc, a, b)),
        Operator::Sub => number_part(minus(alloc, a, b)),
        Operator::Implies
        | Operator::Or
        | Operator::Xor
        | Operator::And
        | Operator::Mul
        | Operator::Div
        | Operator::Mod => Ok(no_part()),
    }
}

/// What an operator makes of parts of two types: they differ, and nothing else.
fn on_unlike(alloc: Global, operator: Operator) -> Result<Part, AllocError>
    ensures { IfOk result (λ r. part_view r ≡ operate_unlike operator) }
{
    match operator {
        Operator::Differs => flag_part(negation(alloc, Term::Truth(false))),
        Operator::Implies
        | Operator::Or
        | Operator::Xor
        | Operator::And
        | Operator::Less
        | Operator::AtMost
        | Operator::Equal
        | Operator::AtLeast
        | Operator::More
        | Operator::Add
        | Operator::Sub
        | Operator::Mul
        | Operator::Div
        | Operator::Mod => Ok(no_part()),
    }
}

/// An operator without a constant operand.
///
/// # Errors
///
/// Want of memory.
#[tactic(auto, using(crate::proofs::Unlike::flag_and_number, crate::proofs::Unlike::number_and_flag))]
pub fn operate(
    alloc: Global,
    operator: Operator,
    first: Part,
    second: Part,
) -> Result<Part, AllocError>
    ensures { IfOk result (λ r. part_view r ≡ operate operator (part_view first) (part_view second)) }
{
    match (first, second) {
        (Part::Flag(a), Part::Flag(b)) => on_flags(alloc, operator, a, b),
        (Part::Number(a), Part::Number(b)) => on_numbers(alloc, operator, a, b),
        (Part::Flag(_), Part::Number(_)) | (Part::Number(_), Part::Flag(_)) => {
            on_unlike(alloc, operator)
        }
    }
}
