//! The operators on values.

ghost use Rattle.std.specs.Prelude.{◌≡◌, pos};
ghost use Rattle.std.specs.Int.{int_div_euclid, int_rem_euclid};
ghost use Rattle.lus_tree.specs.declared.expression.Operator.TheVariants.{Add, Sub, Mul, Div, Mod};
ghost use Rattle.lus_meaning.specs.Value.{flag, whole, apply, not_value, choose};
ghost use Rattle.lus_meaning.specs.TraceView.{entry_view};
ghost use Rattle.slot_values.specs.Evaluated.{answer_view};
ghost use Rattle.slot_values.specs.Stepwise.{operated, minus_at};

use crate::resolved::PastAt;
use kind_num::{add, euclid, mul, sub};
use lus_meaning::Value;
use lus_tree::{Operator, Pos};

/// The opposite truth value.
pub(crate) fn negated(value: Option<Value>) -> Option<Value>
    ensures { entry_view result ≡ not_value (entry_view value) }
{
    match value {
        Some(Value::Truth(b)) => Some(Value::Truth(!b)),
        Some(Value::Whole(_)) => None,
        None => None,
    }
}

/// One of two values, by a truth value.
pub(crate) fn chosen(
    condition: Option<Value>,
    first: Option<Value>,
    second: Option<Value>,
) -> Option<Value>
    ensures { entry_view result ≡ choose (entry_view condition) (entry_view first) (entry_view second) }
{
    match condition {
        Some(Value::Truth(true)) => first,
        Some(Value::Truth(false)) => second,
        Some(Value::Whole(_)) => None,
        None => None,
    }
}

fn sum(at: Pos, a: i128, b: i128) -> Result<Option<Value>, PastAt>
    ensures { answer_view result ≡ operated at Add (whole a) (whole b) }
{
    match add(a, b) {
        Ok(n) => Ok(Some(Value::Whole(n))),
        Err(past) => Err(PastAt { at, past }),
    }
}

fn difference(at: Pos, a: i128, b: i128) -> Result<Option<Value>, PastAt>
    ensures { answer_view result ≡ operated at Sub (whole a) (whole b) }
{
    match sub(a, b) {
        Ok(n) => Ok(Some(Value::Whole(n))),
        Err(past) => Err(PastAt { at, past }),
    }
}

fn product(at: Pos, a: i128, b: i128) -> Result<Option<Value>, PastAt>
    ensures { answer_view result ≡ operated at Mul (whole a) (whole b) }
{
    match mul(a, b) {
        Ok(n) => Ok(Some(Value::Whole(n))),
        Err(past) => Err(PastAt { at, past }),
    }
}

/// The opposite number. A minus is told as taken from 0.
pub(crate) fn opposite(at: Pos, value: Option<Value>) -> Result<Option<Value>, PastAt>
    ensures { answer_view result ≡ minus_at at (entry_view value) }
{
    match value {
        Some(Value::Whole(n)) => match sub(0, n) {
            Ok(m) => Ok(Some(Value::Whole(m))),
            Err(past) => Err(PastAt { at, past }),
        },
        Some(Value::Truth(_)) => Ok(None),
        None => Ok(None),
    }
}

/// What the definition of `div` gives for the divisor 0, by which no program that follows the rules divides.
pub(crate) fn quotient_by_zero(a: i128) -> i128
    ensures { result ≡ int_div_euclid a (pos 0) }
{
    if a < 0 { -1 } else { 0 }
}

/// The same of `mod`.
pub(crate) fn remainder_by_zero(a: i128) -> i128
    ensures { result ≡ int_rem_euclid a (pos 0) }
{
    if a < 0 { 0 } else { a }
}

fn quotient(at: Pos, a: i128, b: i128) -> Result<Option<Value>, PastAt>
    ensures { answer_view result ≡ operated at Div (whole a) (whole b) }
{
    if b == 0 {
        return Ok(Some(Value::Whole(quotient_by_zero(a))));
    }
    match euclid(a, b) {
        Ok((q, _)) => Ok(Some(Value::Whole(q))),
        Err(past) => Err(PastAt { at, past }),
    }
}

fn remainder(at: Pos, a: i128, b: i128) -> Result<Option<Value>, PastAt>
    ensures { answer_view result ≡ operated at Mod (whole a) (whole b) }
{
    if b == 0 {
        return Ok(Some(Value::Whole(remainder_by_zero(a))));
    }
    match euclid(a, b) {
        Ok((_, r)) => Ok(Some(Value::Whole(r))),
        Err(past) => Err(PastAt { at, past }),
    }
}

fn numbers(at: Pos, operator: Operator, a: i128, b: i128) -> Result<Option<Value>, PastAt>
    ensures { answer_view result ≡ operated at operator (whole a) (whole b) }
{
    match operator {
        Operator::Implies | Operator::Or | Operator::Xor | Operator::And => Ok(None),
        Operator::Less => Ok(Some(Value::Truth(a < b))),
        Operator::AtMost => Ok(Some(Value::Truth(a <= b))),
        Operator::Equal => Ok(Some(Value::Truth(a == b))),
        Operator::Differs => Ok(Some(Value::Truth(a != b))),
        Operator::AtLeast => Ok(Some(Value::Truth(a >= b))),
        Operator::More => Ok(Some(Value::Truth(a > b))),
        Operator::Add => sum(at, a, b),
        Operator::Sub => difference(at, a, b),
        Operator::Mul => product(at, a, b),
        Operator::Div => quotient(at, a, b),
        Operator::Mod => remainder(at, a, b),
    }
}

fn truths(operator: Operator, a: bool, b: bool) -> Option<Value>
    ensures { entry_view result ≡ apply operator (flag a) (flag b) }
{
    match operator {
        Operator::Implies => Some(Value::Truth(!a || b)),
        Operator::Or => Some(Value::Truth(a || b)),
        Operator::Xor => Some(Value::Truth(a != b)),
        Operator::And => Some(Value::Truth(a && b)),
        Operator::Equal => Some(Value::Truth(a == b)),
        Operator::Differs => Some(Value::Truth(a != b)),
        Operator::Less
        | Operator::AtMost
        | Operator::AtLeast
        | Operator::More
        | Operator::Add
        | Operator::Sub
        | Operator::Mul
        | Operator::Div
        | Operator::Mod => None,
    }
}

#[tactic(auto, using(crate::proofs::Mismatched::mismatched))]
fn with_truth(
    at: Pos,
    operator: Operator,
    a: bool,
    right: Option<Value>,
) -> Result<Option<Value>, PastAt>
    ensures { answer_view result ≡ operated at operator (flag a) (entry_view right) }
{
    match right {
        Some(Value::Truth(b)) => Ok(truths(operator, a, b)),
        Some(Value::Whole(_)) => Ok(None),
        None => Ok(None),
    }
}

#[tactic(auto, using(crate::proofs::Mismatched::mismatched))]
fn with_number(
    at: Pos,
    operator: Operator,
    a: i128,
    right: Option<Value>,
) -> Result<Option<Value>, PastAt>
    ensures { answer_view result ≡ operated at operator (whole a) (entry_view right) }
{
    match right {
        Some(Value::Whole(b)) => numbers(at, operator, a, b),
        Some(Value::Truth(_)) => Ok(None),
        None => Ok(None),
    }
}

/// An operator on two values: absent where one is absent, or they have other types than it takes.
#[tactic(auto, using(crate::proofs::Mismatched::mismatched))]
pub(crate) fn combined(
    at: Pos,
    operator: Operator,
    left: Option<Value>,
    right: Option<Value>,
) -> Result<Option<Value>, PastAt>
    ensures { answer_view result ≡ operated at operator (entry_view left) (entry_view right) }
{
    match left {
        Some(Value::Truth(a)) => with_truth(at, operator, a, right),
        Some(Value::Whole(a)) => with_number(at, operator, a, right),
        None => Ok(None),
    }
}
