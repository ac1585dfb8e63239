//! Values and weights of expressions by those of their parts.

ghost use Rattle.std.specs.Prelude.{◌≡◌, false, true, Bool, None, Some, option_map, pos};
ghost use Rattle.lus_meaning.specs.Scope.{apply_total, choice_worth, choose_total, greater, is_heavy, operator_weight, operator_worth, size_of, weighing, worth};
ghost use Rattle.lus_meaning.specs.Value.{minus_value, not_value, whole};
ghost use Rattle.lus_scopes.specs.Cut.{cut, cut_worth, is_bounded, known_value};
ghost use Rattle.lus_scopes.specs.Worth.{worth_view};

use crate::values::{choice, negated, operator_applied, opposite};
use crate::weights::{both_product, both_sum, greater, is_heavy, quotient, remainder, size};
use crate::worth::Worth;
use lus_meaning::Value;
use lus_tree::Operator;

/// A value with a weight. What is too heavy has no value.
fn of(value: Option<Value>, weight: Option<u64>) -> Worth
    requires { is_heavy weight ≡ false → is_bounded (known_value value) weight ≡ true }
    ensures { worth_view result ≡ worth (known_value value) weight }
{
    if is_heavy(weight) {
        Worth {
            value: None,
            weight,
        }
    } else {
        Worth { value, weight }
    }
}

/// A weight without a value.
pub(crate) fn weighing(weight: Option<u64>) -> Worth
    ensures { worth_view result ≡ weighing weight }
{
    Worth {
        value: None,
        weight,
    }
}

/// A truth value.
pub(crate) fn of_truth(value: bool) -> Worth
    ensures { worth_view result ≡ worth (known_value (Some (Value.Truth value))) None }
{
    of(Some(Value::Truth(value)), None)
}

/// A constant, of which only the value is known.
pub(crate) fn of_constant(value: Option<Value>) -> Worth
    ensures { worth_view result ≡ cut_worth (worth (known_value value) (size_of (known_value value))) }
{
    of(value, size(value))
}

/// The weight of a result of an operator.
fn operator_weight(operator: Operator, constant: bool, left: Worth, right: Worth) -> Option<u64>
    ensures { result ≡ cut (operator_weight operator constant (worth_view left) (worth_view right)) }
{
    match operator {
        Operator::Add | Operator::Sub => both_sum(left.weight, right.weight),
        Operator::Mul => {
            if constant {
                both_product(size(left.value), right.weight)
            } else {
                both_product(size(right.value), left.weight)
            }
        }
        Operator::Div => quotient(left.weight, right.value),
        Operator::Mod => remainder(right.value),
        Operator::Implies
        | Operator::Or
        | Operator::Xor
        | Operator::And
        | Operator::Less
        | Operator::AtMost
        | Operator::Equal
        | Operator::Differs
        | Operator::AtLeast
        | Operator::More => None,
    }
}

/// What is known of `not`.
pub(crate) fn not(part: Worth) -> Worth
    ensures { worth_view result ≡ cut_worth (worth (not_value (worth_view part).value) None) }
{
    of(negated(part.value), None)
}

/// What is known of `-`.
pub(crate) fn minus(part: Worth) -> Worth
    ensures { worth_view result ≡ worth (minus_value (worth_view part).value) (worth_view part).weight }
{
    of(opposite(part), part.weight)
}

/// What is known of an operator. `constant` says whether its left operand is constant.
#[tactic(auto, using(crate::proofs::Bounds::operator_bounded))]
pub(crate) fn operated(operator: Operator, constant: bool, left: Worth, right: Worth) -> Worth
    ensures { worth_view result ≡ cut_worth (operator_worth operator constant (worth_view left) (worth_view right)) }
{
    of(
        operator_applied(operator, left, right),
        operator_weight(operator, constant, left, right),
    )
}

/// What is known of `if`.
pub(crate) fn chosen(condition: Worth, first: Worth, second: Worth) -> Worth
    ensures { worth_view result ≡ cut_worth (choice_worth (worth_view condition) (worth_view first)
        (worth_view second)) }
{
    of(
        choice(condition.value, first.value, second.value),
        greater(first.weight, second.weight),
    )
}

/// What is known of two streams of which each gives a part of the values.
pub(crate) fn either(first: Worth, second: Worth) -> Worth
    ensures { worth_view result ≡ cut_worth (weighing (greater (worth_view first).weight (worth_view second).weight)) }
{
    weighing(greater(first.weight, second.weight))
}

/// A literal.
pub(crate) fn of_number(number: u64) -> Worth
    ensures { worth_view result ≡ cut_worth (worth (whole (pos number)) (Some number)) }
{
    of_constant(Some(Value::Whole(number as i128)))
}
