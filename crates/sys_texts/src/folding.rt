//! What an expression comes to, by what its operands come to.

ghost use Rattle.std.specs.Prelude.{◌≡◌, IfOk};
ghost use Rattle.lus_tree.specs.declared.expression.Operator.TheVariants.{Div, Mod, Mul};
ghost use Rattle.sys_parts.specs.Parts.{part_view};
ghost use Rattle.sys_texts.specs.Texts.{as_part, chosen, chosen_parts, is_known, negated, number_in, operated, operated_parts, opposite};
ghost use Rattle.sys_texts.specs.Views.{folded_view};

use lus_tree::Operator;
use std::alloc::{AllocError, Global};
use sys_parts::choices::{choose_part, divided, minus_part, not_part, rest_of, scaled};
use sys_parts::constant::Constant;
use sys_parts::operators::operate;
use sys_parts::parts::{Part, fixed, formula_of};
use sys_parts::values;

/// What an expression comes to: a value where it is constant, else a part.
#[derive(Drop)]
pub enum Folded {
    Known(Constant),
    Open(Part),
}

/// As a part.
pub fn as_part(value: Folded) -> Part
    ensures { part_view result ≡ as_part (folded_view value) }
{
    match value {
        Folded::Known(value) => fixed(value),
        Folded::Open(part) => part,
    }
}

/// The number, 0 where it isn't constant.
fn number_in(value: &Folded) -> i128
    ensures { result ≡ number_in (folded_view value.now) }
{
    match value {
        Folded::Known(value) => values::number_of(*value),
        Folded::Open(_) => 0,
    }
}

/// Whether it is constant.
fn is_known(value: &Folded) -> bool
    ensures { result ≡ is_known (folded_view value.now) }
{
    match value {
        Folded::Known(_) => true,
        Folded::Open(_) => false,
    }
}

/// The other truth value.
pub(crate) fn negated(alloc: Global, value: Folded) -> Result<Folded, AllocError>
    ensures { IfOk result (λ r. folded_view r ≡ negated (folded_view value)) }
{
    match value {
        Folded::Known(value) => Ok(Folded::Known(values::negated(value))),
        Folded::Open(part) => Ok(Folded::Open(not_part(alloc, part)?)),
    }
}

/// The opposite number.
pub(crate) fn opposite(alloc: Global, value: Folded) -> Result<Folded, AllocError>
    ensures { IfOk result (λ r. folded_view r ≡ opposite (folded_view value)) }
{
    match value {
        Folded::Known(value) => Ok(Folded::Known(values::opposite(value))),
        Folded::Open(part) => Ok(Folded::Open(minus_part(alloc, part)?)),
    }
}

/// A product, where one factor is constant.
fn product(alloc: Global, first: Folded, second: Folded) -> Result<Part, AllocError>
    ensures { IfOk result (λ r. part_view r ≡ operated_parts Mul (folded_view first) (folded_view second)) }
{
    if is_known(&first) {
        let factor = number_in(&first);
        scaled(alloc, factor, as_part(second))
    } else {
        let factor = number_in(&second);
        scaled(alloc, factor, as_part(first))
    }
}

/// A quotient by a constant.
fn quotient(alloc: Global, first: Folded, second: Folded) -> Result<Part, AllocError>
    ensures { IfOk result (λ r. part_view r ≡ operated_parts Div (folded_view first) (folded_view second)) }
{
    let divisor = number_in(&second);
    divided(alloc, as_part(first), divisor)
}

/// A remainder by a constant.
fn remainder(alloc: Global, first: Folded, second: Folded) -> Result<Part, AllocError>
    ensures { IfOk result (λ r. part_view r ≡ operated_parts Mod (folded_view first) (folded_view second)) }
{
    let divisor = number_in(&second);
    rest_of(alloc, as_part(first), divisor)
}

/// An operator, of which not both operands are constant.
fn operated_parts(
    alloc: Global,
    operator: Operator,
    first: Folded,
    second: Folded,
) -> Result<Part, AllocError>
    ensures { IfOk result (λ r. part_view r ≡ operated_parts operator (folded_view first) (folded_view second)) }
{
    match operator {
        Operator::Mul => product(alloc, first, second),
        Operator::Div => quotient(alloc, first, second),
        Operator::Mod => remainder(alloc, first, second),
        Operator::Implies
        | Operator::Or
        | Operator::Xor
        | Operator::And
        | Operator::Less
        | Operator::AtMost
        | Operator::Equal
        | Operator::Differs
        | Operator::AtLeast
        | Operator::More
        | Operator::Add
        | Operator::Sub => operate(alloc, operator, as_part(first), as_part(second)),
    }
}

/// An operator.
pub(crate) fn operated(
    alloc: Global,
    operator: Operator,
    first: Folded,
    second: Folded,
) -> Result<Folded, AllocError>
    ensures { IfOk result (λ r. folded_view r ≡ operated operator (folded_view first) (folded_view second)) }
{
    match (first, second) {
        (Folded::Known(first), Folded::Known(second)) => {
            Ok(Folded::Known(values::applied(operator, first, second)))
        }
        (first, second) => Ok(Folded::Open(operated_parts(alloc, operator, first, second)?)),
    }
}

/// A choice, of which not all operands are constant.
fn chosen_parts(
    alloc: Global,
    condition: Folded,
    first: Folded,
    second: Folded,
) -> Result<Part, AllocError>
    ensures { IfOk result (λ r. part_view r ≡ chosen_parts (folded_view condition) (folded_view first)
        (folded_view second)) }
{
    let condition = formula_of(as_part(condition));
    choose_part(alloc, condition, as_part(first), as_part(second))
}

/// One of two, by a condition.
pub(crate) fn chosen(
    alloc: Global,
    condition: Folded,
    first: Folded,
    second: Folded,
) -> Result<Folded, AllocError>
    ensures { IfOk result (λ r. folded_view r ≡ chosen (folded_view condition) (folded_view first)
        (folded_view second)) }
{
    match (condition, first, second) {
        (Folded::Known(condition), Folded::Known(first), Folded::Known(second)) => {
            Ok(Folded::Known(values::chosen(condition, first, second)))
        }
        (condition, first, second) => {
            Ok(Folded::Open(chosen_parts(alloc, condition, first, second)?))
        }
    }
}
