//! Values of constant expressions.

ghost use Rattle.std.specs.Prelude.{◌≡◌, ◌<◌, ◌^◌, unsigned_abs};
ghost use Rattle.lus_meaning.specs.Scope.{apply_total, choose_total, is_zero};
ghost use Rattle.lus_meaning.specs.Value.{flag, minus_value, not_value, whole};
ghost use Rattle.lus_scopes.specs.Cut.{heaviest, known_value};
ghost use Rattle.lus_scopes.specs.Worth.{worth_view};

use crate::worth::Worth;
use lus_meaning::Value;
use lus_tree::Operator;

/// Whether a value is the number 0.
pub(crate) fn is_zero(value: Option<Value>) -> bool
    ensures { result ≡ is_zero (known_value value) }
{
    match value {
        Some(Value::Whole(number)) => number == 0,
        Some(Value::Truth(_)) | None => false,
    }
}

/// An operator on truth values.
fn flags_applied(operator: Operator, left: bool, right: bool) -> Option<Value>
    ensures { known_value result ≡ apply_total operator (flag left) (flag right) }
{
    match operator {
        Operator::Implies => Some(Value::Truth(!left || right)),
        Operator::Or => Some(Value::Truth(left || right)),
        Operator::Xor | Operator::Differs => Some(Value::Truth(left != right)),
        Operator::And => Some(Value::Truth(left && right)),
        Operator::Equal => Some(Value::Truth(left == right)),
        Operator::Less
        | Operator::AtMost
        | Operator::AtLeast
        | Operator::More
        | Operator::Add
        | Operator::Sub
        | Operator::Mul
        | Operator::Div
        | Operator::Mod => None,
    }
}

/// A quotient, rounded so that the remainder isn't negative. One by 0 has no value.
fn quotient(left: i128, right: i128) -> Option<Value>
    requires left { unsigned_abs left < heaviest }
    requires right { unsigned_abs right < heaviest }
    ensures { known_value result ≡ apply_total Operator.Div (whole left) (whole right) }
{
    if right == 0 {
        None
    } else {
        Some(Value::Whole(left.div_euclid(right)))
    }
}

/// A remainder that isn't negative. One by 0 has no value.
fn remainder(left: i128, right: i128) -> Option<Value>
    requires left { unsigned_abs left < heaviest }
    requires right { unsigned_abs right < heaviest }
    ensures { known_value result ≡ apply_total Operator.Mod (whole left) (whole right) }
{
    if right == 0 {
        None
    } else {
        Some(Value::Whole(left.rem_euclid(right)))
    }
}

/// A product of numbers.
fn product(left: i128, right: i128) -> Option<Value>
    requires left { unsigned_abs left < heaviest }
    requires right { unsigned_abs right < heaviest }
    ensures { known_value result ≡ apply_total Operator.Mul (whole left) (whole right) }
{
    Some(Value::Whole(left * right))
}

/// An operator on numbers.
fn numbers_applied(operator: Operator, left: i128, right: i128) -> Option<Value>
    requires left { unsigned_abs left < heaviest }
    requires right { unsigned_abs right < heaviest }
    ensures { known_value result ≡ apply_total operator (whole left) (whole right) }
{
    match operator {
        Operator::Less => Some(Value::Truth(left < right)),
        Operator::AtMost => Some(Value::Truth(left <= right)),
        Operator::Equal => Some(Value::Truth(left == right)),
        Operator::Differs => Some(Value::Truth(left != right)),
        Operator::AtLeast => Some(Value::Truth(left >= right)),
        Operator::More => Some(Value::Truth(left > right)),
        Operator::Add => Some(Value::Whole(left + right)),
        Operator::Sub => Some(Value::Whole(left - right)),
        Operator::Mul => product(left, right),
        Operator::Div => quotient(left, right),
        Operator::Mod => remainder(left, right),
        Operator::Implies | Operator::Or | Operator::Xor | Operator::And => None,
    }
}

/// An operator on two values. It has no value where they are not of its types.
pub(crate) fn operator_applied(operator: Operator, left: Worth, right: Worth) -> Option<Value>
    ensures { known_value result ≡ apply_total operator (worth_view left).value (worth_view right).value }
{
    match (left.value, right.value) {
        (Some(Value::Truth(left)), Some(Value::Truth(right))) => {
            flags_applied(operator, left, right)
        }
        (Some(Value::Whole(left)), Some(Value::Whole(right))) => {
            numbers_applied(operator, left, right)
        }
        _ => None,
    }
}

/// The other truth value.
pub(crate) fn negated(value: Option<Value>) -> Option<Value>
    ensures { known_value result ≡ not_value (known_value value) }
{
    match value {
        Some(Value::Truth(value)) => Some(Value::Truth(!value)),
        Some(Value::Whole(_)) | None => None,
    }
}

/// The opposite number.
pub(crate) fn opposite(part: Worth) -> Option<Value>
    ensures { known_value result ≡ minus_value (worth_view part).value }
{
    match part.value {
        Some(Value::Whole(value)) => Some(Value::Whole(-value)),
        Some(Value::Truth(_)) | None => None,
    }
}

/// One of two values of one type.
pub(crate) fn choice(
    condition: Option<Value>,
    first: Option<Value>,
    second: Option<Value>,
) -> Option<Value>
    ensures { known_value result ≡ choose_total (known_value condition) (known_value first) (known_value second) }
{
    match (condition, first, second) {
        (Some(Value::Truth(holds)), Some(Value::Truth(first)), Some(Value::Truth(second))) => {
            Some(Value::Truth(if holds { first } else { second }))
        }
        (Some(Value::Truth(holds)), Some(Value::Whole(first)), Some(Value::Whole(second))) => {
            Some(Value::Whole(if holds { first } else { second }))
        }
        _ => None,
    }
}
