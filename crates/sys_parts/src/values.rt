//! Values of constant expressions by those of their parts.

ghost use Rattle.std.specs.Prelude.{◌≡◌, ◌<◌, pos, unsigned_abs};
ghost use Rattle.lus_tree.specs.declared.expression.Operator.TheVariants.{Div, Mod, Mul};
ghost use Rattle.lus_meaning.specs.Scope.{apply_total, choose_total};
ghost use Rattle.lus_meaning.specs.Value.{absent, flag, minus_value, not_value, whole};
ghost use Rattle.sys_meaning.specs.Translate.{number_of_value};
ghost use Rattle.sys_parts.specs.Constants.{constant_view};
ghost use Rattle.sys_parts.specs.Values.{greatest, known_value, tame};

use crate::constant::Constant;
use lus_meaning::Value;
use lus_tree::Operator;

/// The least size of a number that is too great: 2^63 + 1.
const GREATEST: u128 = 9_223_372_036_854_775_809;

/// No value.
pub fn no_value() -> Constant
    ensures { constant_view result ≡ absent }
{
    Constant { value: None }
}

/// A truth value.
pub fn of_truth(truth: bool) -> Constant
    ensures { constant_view result ≡ flag truth }
{
    Constant {
        value: Some(Value::Truth(truth)),
    }
}

/// A number, none where it is too great.
fn of_whole(number: i128) -> Constant
    ensures { constant_view result ≡ tame (whole number) }
{
    if number.unsigned_abs() < GREATEST {
        Constant {
            value: Some(Value::Whole(number)),
        }
    } else {
        no_value()
    }
}

/// A literal, none where it is too great.
pub fn of_number(number: u64) -> Constant
    ensures { constant_view result ≡ tame (whole (pos number)) }
{
    of_whole(number as i128)
}

/// An operator on truth values.
fn flags_applied(operator: Operator, left: bool, right: bool) -> Constant
    ensures { constant_view result ≡ tame (apply_total operator (flag left) (flag right)) }
{
    match operator {
        Operator::Implies => of_truth(!left || right),
        Operator::Or => of_truth(left || right),
        Operator::Xor | Operator::Differs => of_truth(left != right),
        Operator::And => of_truth(left && right),
        Operator::Equal => of_truth(left == right),
        Operator::Less
        | Operator::AtMost
        | Operator::AtLeast
        | Operator::More
        | Operator::Add
        | Operator::Sub
        | Operator::Mul
        | Operator::Div
        | Operator::Mod => no_value(),
    }
}

/// A quotient, rounded so that the remainder isn't negative. One by 0 has no value.
fn quotient(left: i128, right: i128) -> Constant
    requires left { unsigned_abs left < greatest }
    requires right { unsigned_abs right < greatest }
    ensures { constant_view result ≡ tame (apply_total Div (whole left) (whole right)) }
{
    if right == 0 {
        no_value()
    } else {
        of_whole(left.div_euclid(right))
    }
}

/// A remainder that isn't negative. One by 0 has no value.
fn remainder(left: i128, right: i128) -> Constant
    requires left { unsigned_abs left < greatest }
    requires right { unsigned_abs right < greatest }
    ensures { constant_view result ≡ tame (apply_total Mod (whole left) (whole right)) }
{
    if right == 0 {
        no_value()
    } else {
        of_whole(left.rem_euclid(right))
    }
}

/// A product of numbers.
fn product(left: i128, right: i128) -> Constant
    requires left { unsigned_abs left < greatest }
    requires right { unsigned_abs right < greatest }
    ensures { constant_view result ≡ tame (apply_total Mul (whole left) (whole right)) }
{
    of_whole(left * right)
}

/// An operator on numbers.
fn numbers_applied(operator: Operator, left: i128, right: i128) -> Constant
    requires left { unsigned_abs left < greatest }
    requires right { unsigned_abs right < greatest }
    ensures { constant_view result ≡ tame (apply_total operator (whole left) (whole right)) }
{
    match operator {
        Operator::Less => of_truth(left < right),
        Operator::AtMost => of_truth(left <= right),
        Operator::Equal => of_truth(left == right),
        Operator::Differs => of_truth(left != right),
        Operator::AtLeast => of_truth(left >= right),
        Operator::More => of_truth(left > right),
        Operator::Add => of_whole(left + right),
        Operator::Sub => of_whole(left - right),
        Operator::Mul => product(left, right),
        Operator::Div => quotient(left, right),
        Operator::Mod => remainder(left, right),
        Operator::Implies | Operator::Or | Operator::Xor | Operator::And => no_value(),
    }
}

/// An operator on two values. It has no value where they are not of its types.
pub fn applied(operator: Operator, left: Constant, right: Constant) -> Constant
    ensures { constant_view result ≡ tame (apply_total operator (constant_view left) (constant_view right)) }
{
    match (left.value, right.value) {
        (Some(Value::Truth(left)), Some(Value::Truth(right))) => {
            flags_applied(operator, left, right)
        }
        (Some(Value::Whole(left)), Some(Value::Whole(right))) => {
            numbers_applied(operator, left, right)
        }
        _ => no_value(),
    }
}

/// The other truth value.
pub fn negated(value: Constant) -> Constant
    ensures { constant_view result ≡ not_value (constant_view value) }
{
    match value.value {
        Some(Value::Truth(truth)) => of_truth(!truth),
        Some(Value::Whole(_)) | None => no_value(),
    }
}

/// The opposite number.
pub fn opposite(value: Constant) -> Constant
    ensures { constant_view result ≡ tame (minus_value (constant_view value)) }
{
    match value.value {
        Some(Value::Whole(number)) => of_whole(-number),
        Some(Value::Truth(_)) | None => no_value(),
    }
}

/// One of two values of one type.
pub fn chosen(condition: Constant, first: Constant, second: Constant) -> Constant
    ensures { constant_view result ≡ choose_total (constant_view condition) (constant_view first)
        (constant_view second) }
{
    match (condition.value, first.value, second.value) {
        (Some(Value::Truth(holds)), Some(Value::Truth(_)), Some(Value::Truth(_)))
        | (Some(Value::Truth(holds)), Some(Value::Whole(_)), Some(Value::Whole(_))) => {
            if holds { first } else { second }
        }
        _ => no_value(),
    }
}

/// A number, 0 where there is none.
pub fn number_of(value: Constant) -> i128
    ensures { result ≡ number_of_value (constant_view value) }
{
    match value.value {
        Some(Value::Whole(number)) => number,
        Some(Value::Truth(_)) | None => 0,
    }
}
