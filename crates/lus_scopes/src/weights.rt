//! Weights of expressions. A weight of more than 2^63 is known to be that, and not kept.

ghost use Rattle.std.specs.Prelude.{◌≡◌, ◌+◌, ◌*◌, ◌↔◌, IsTrue, min, max, option_map};
ghost use Rattle.lus_meaning.specs.Scope.{both_weights, divided_weight, greater, is_heavy, size_of};
ghost use Rattle.lus_scopes.specs.Cut.{cut, heaviest, known_value};

use crate::values::is_zero;
use lus_meaning::Value;

/// The least weight that is too great: 2^63 + 1. Greater ones are cut there.
const HEAVIEST: u64 = 9_223_372_036_854_775_809;

/// A weight that is cut.
fn cut(weight: u128) -> u64
    ensures { result ≡ min heaviest weight }
{
    if weight < HEAVIEST as u128 {
        weight as u64
    } else {
        HEAVIEST
    }
}

/// The sum of two weights.
pub(crate) fn both_sum(left: Option<u64>, right: Option<u64>) -> Option<u64>
    ensures { result ≡ cut (both_weights (λ v w. v + w) left right) }
{
    match (left, right) {
        (Some(left), Some(right)) => Some(cut(left as u128 + right as u128)),
        _ => None,
    }
}

/// The product of two weights.
pub(crate) fn both_product(left: Option<u64>, right: Option<u64>) -> Option<u64>
    ensures { result ≡ cut (both_weights (λ v w. v * w) left right) }
{
    match (left, right) {
        (Some(left), Some(right)) => Some(cut(left as u128 * right as u128)),
        _ => None,
    }
}

/// The greater of two weights, at least 1.
pub(crate) fn greater(left: Option<u64>, right: Option<u64>) -> Option<u64>
    ensures { result ≡ cut (greater left right) }
{
    match (left, right) {
        (Some(left), Some(right)) => Some(cut(1.max(left.max(right)) as u128)),
        _ => None,
    }
}

/// A weight, at least 1.
fn at_least_one(weight: Option<u64>) -> Option<u64>
    ensures { result ≡ cut (option_map (max 1) weight) }
{
    match weight {
        Some(weight) => Some(cut(1.max(weight) as u128)),
        None => None,
    }
}

/// The size of a number.
pub(crate) fn size(value: Option<Value>) -> Option<u64>
    ensures { result ≡ cut (size_of (known_value value)) }
{
    match value {
        Some(Value::Whole(number)) => Some(cut(number.unsigned_abs())),
        Some(Value::Truth(_)) | None => None,
    }
}

/// The weight of a quotient, where the divisor isn't 0.
pub(crate) fn quotient(dividend: Option<u64>, divisor: Option<Value>) -> Option<u64>
    ensures { result ≡ cut (divided_weight (known_value divisor) (option_map (max 1) dividend)) }
{
    if is_zero(divisor) {
        None
    } else {
        at_least_one(dividend)
    }
}

/// The weight of a remainder, where the divisor isn't 0.
pub(crate) fn remainder(divisor: Option<Value>) -> Option<u64>
    ensures { result ≡ cut (divided_weight (known_value divisor) (size_of (known_value divisor))) }
{
    if is_zero(divisor) {
        None
    } else {
        size(divisor)
    }
}

/// Whether a weight is too great.
pub(crate) fn is_heavy(weight: Option<u64>) -> bool
    ensures { result ≡ is_heavy weight }
{
    match weight {
        Some(weight) => weight >= HEAVIEST,
        None => false,
    }
}
