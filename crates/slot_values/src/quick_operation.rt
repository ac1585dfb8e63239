//! The operators on what expressions come to.

ghost use Rattle.std.specs.Prelude.{◌≡◌, ◌≢◌, IfSome, Ok, Some, false, is_none, option_map, pos, true};
ghost use Rattle.std.specs.Int.{int_div_euclid, int_rem_euclid};
ghost use lib.IntN.{◌*ℤ◌};
ghost use Rattle.kind_num.specs.declared.Op.TheVariants as ops;
ghost use Rattle.kind_num.specs.Exact.{IsExact, IsExactPair, within};
ghost use Rattle.lus_tree.specs.declared.expression.Operator.TheVariants.{Add, Sub, Mul, Div, Mod};
ghost use Rattle.lus_meaning.specs.Value.{flag, whole, apply, not_value};
ghost use Rattle.slot_values.specs.Evaluated.{only_where, slot_view};
ghost use Rattle.slot_values.specs.Outcome.{outcome_view};
ghost use Rattle.slot_values.specs.Quickly.{applied, chosen_of, minus_of};

use crate::operation::{quotient_by_zero, remainder_by_zero};
use crate::outcome::Outcome;
use crate::slot::SlotValue;
use kind_num::{add, euclid, mul, sub};
use lus_tree::Operator;

/// The opposite truth value.
pub(crate) fn not_of(a: Outcome) -> Outcome
    ensures { outcome_view result ≡ option_map not_value (outcome_view a) }
{
    match a {
        Outcome::Truth(b) => Outcome::Truth(!b),
        Outcome::Absent | Outcome::Whole(_) => Outcome::Absent,
        Outcome::Outside => Outcome::Outside,
    }
}

/// The opposite number.
pub(crate) fn minus_of(a: Outcome) -> Outcome
    ensures { outcome_view result ≡ minus_of (outcome_view a) }
{
    match a {
        Outcome::Whole(n) => match sub(0, n) {
            Ok(m) => Outcome::Whole(m),
            Err(_) => Outcome::Outside,
        },
        Outcome::Absent | Outcome::Truth(_) => Outcome::Absent,
        Outcome::Outside => Outcome::Outside,
    }
}

/// Whether an operation is outside 128 bits.
fn is_outside(a: Outcome) -> bool
    ensures { result ≡ is_none (outcome_view a) }
{
    match a {
        Outcome::Outside => true,
        Outcome::Absent | Outcome::Truth(_) | Outcome::Whole(_) => false,
    }
}

/// The outcome where that is wanted, else none; but outside 128 bits where it is that.
pub(crate) fn kept_where(on: bool, a: Outcome) -> Outcome
    ensures { outcome_view result ≡ option_map (only_where on) (outcome_view a) }
{
    if on || is_outside(a) {
        a
    } else {
        Outcome::Absent
    }
}

/// One of two outcomes, by a truth value.
pub(crate) fn chosen_of(condition: SlotValue, first: Outcome, second: Outcome) -> Outcome
    ensures { outcome_view result ≡ chosen_of (slot_view condition) (outcome_view first) (outcome_view second) }
{
    if is_outside(first) || is_outside(second) {
        return Outcome::Outside;
    }
    match condition {
        SlotValue::Truth(true) => first,
        SlotValue::Truth(false) => second,
        SlotValue::Absent | SlotValue::Whole(_) => Outcome::Absent,
    }
}

/// The first outcome, unless the second one is outside 128 bits.
pub(crate) fn within_both(chosen: Outcome, other: Outcome) -> Outcome
    ensures first { outcome_view result ≡ chosen_of (flag true) (outcome_view chosen) (outcome_view other) }
    ensures second { outcome_view result ≡ chosen_of (flag false) (outcome_view other) (outcome_view chosen) }
{
    if is_outside(other) {
        Outcome::Outside
    } else {
        chosen
    }
}

fn sum(a: i128, b: i128) -> Outcome
    ensures { outcome_view result ≡ applied Add (Some (whole a)) (Some (whole b)) }
{
    match add(a, b) {
        Ok(n) => Outcome::Whole(n),
        Err(_) => Outcome::Outside,
    }
}

fn difference(a: i128, b: i128) -> Outcome
    ensures { outcome_view result ≡ applied Sub (Some (whole a)) (Some (whole b)) }
{
    match sub(a, b) {
        Ok(n) => Outcome::Whole(n),
        Err(_) => Outcome::Outside,
    }
}

/// A number of 64 bits: the machine multiplies and divides those in one step.
fn small(n: i128) -> Option<i64>
    ensures { IfSome result (λ m. m ≡ n) }
{
    i64::try_from(n).ok()
}

/// A number of 64 bits as one of 128.
fn widened(n: i64) -> i128
    ensures same { result ≡ n }
    ensures within { within result ≡ true }
{
    i128::from(n)
}

/// The product of two numbers of 64 bits, if it has no more.
fn small_product(a: i128, b: i128) -> Option<i128>
    ensures { IfSome result (λ n. IsExact ops.Mul a b (a *ℤ b) (Ok n)) }
{
    Some(widened(small(a)?.checked_mul(small(b)?)?))
}

fn product(a: i128, b: i128) -> Outcome
    ensures { outcome_view result ≡ applied Mul (Some (whole a)) (Some (whole b)) }
{
    if let Some(n) = small_product(a, b) {
        return Outcome::Whole(n);
    }
    match mul(a, b) {
        Ok(n) => Outcome::Whole(n),
        Err(_) => Outcome::Outside,
    }
}

/// The quotient and the remainder of two numbers of 64 bits, if they have no more.
fn small_euclid(a: i128, b: i128) -> Option<(i128, i128)>
    requires { b ≢ pos 0 }
    ensures { IfSome result (λ v. IsExactPair ops.Div a b (int_div_euclid a b) (int_rem_euclid a b) (Ok v)) }
{
    let (a, b) = (small(a)?, small(b)?);
    let quotient = a.checked_div_euclid(b)?;
    Some((widened(quotient), widened(a.rem_euclid(b))))
}

fn quotient(a: i128, b: i128) -> Outcome
    ensures { outcome_view result ≡ applied Div (Some (whole a)) (Some (whole b)) }
{
    if b == 0 {
        return Outcome::Whole(quotient_by_zero(a));
    }
    if let Some((q, _)) = small_euclid(a, b) {
        return Outcome::Whole(q);
    }
    match euclid(a, b) {
        Ok((q, _)) => Outcome::Whole(q),
        Err(_) => Outcome::Outside,
    }
}

fn remainder(a: i128, b: i128) -> Outcome
    ensures { outcome_view result ≡ applied Mod (Some (whole a)) (Some (whole b)) }
{
    if b == 0 {
        return Outcome::Whole(remainder_by_zero(a));
    }
    if let Some((_, r)) = small_euclid(a, b) {
        return Outcome::Whole(r);
    }
    match euclid(a, b) {
        Ok((_, r)) => Outcome::Whole(r),
        Err(_) => Outcome::Outside,
    }
}

fn numbers(operator: Operator, a: i128, b: i128) -> Outcome
    ensures { outcome_view result ≡ applied operator (Some (whole a)) (Some (whole b)) }
{
    match operator {
        Operator::Implies | Operator::Or | Operator::Xor | Operator::And => Outcome::Absent,
        Operator::Less => Outcome::Truth(a < b),
        Operator::AtMost => Outcome::Truth(a <= b),
        Operator::Equal => Outcome::Truth(a == b),
        Operator::Differs => Outcome::Truth(a != b),
        Operator::AtLeast => Outcome::Truth(a >= b),
        Operator::More => Outcome::Truth(a > b),
        Operator::Add => sum(a, b),
        Operator::Sub => difference(a, b),
        Operator::Mul => product(a, b),
        Operator::Div => quotient(a, b),
        Operator::Mod => remainder(a, b),
    }
}

fn truths(operator: Operator, a: bool, b: bool) -> Outcome
    ensures { outcome_view result ≡ applied operator (Some (flag a)) (Some (flag b)) }
{
    match operator {
        Operator::Implies => Outcome::Truth(!a || b),
        Operator::Or => Outcome::Truth(a || b),
        Operator::Xor => Outcome::Truth(a != b),
        Operator::And => Outcome::Truth(a && b),
        Operator::Equal => Outcome::Truth(a == b),
        Operator::Differs => Outcome::Truth(a != b),
        Operator::Less
        | Operator::AtMost
        | Operator::AtLeast
        | Operator::More
        | Operator::Add
        | Operator::Sub
        | Operator::Mul
        | Operator::Div
        | Operator::Mod => Outcome::Absent,
    }
}

/// An operator whose first operand is a truth value: absent where the second one is absent or has another type than it
/// takes; outside 128 bits where that is, or the result.
#[tactic(auto, using(crate::proofs::Mismatched::mismatched))]
pub(crate) fn with_truth(operator: Operator, a: bool, right: Outcome) -> Outcome
    ensures { outcome_view result ≡ applied operator (Some (flag a)) (outcome_view right) }
{
    match right {
        Outcome::Truth(b) => truths(operator, a, b),
        Outcome::Absent | Outcome::Whole(_) => Outcome::Absent,
        Outcome::Outside => Outcome::Outside,
    }
}

/// The same where that is a whole number.
#[tactic(auto, using(crate::proofs::Mismatched::mismatched))]
pub(crate) fn with_number(operator: Operator, a: i128, right: Outcome) -> Outcome
    ensures { outcome_view result ≡ applied operator (Some (whole a)) (outcome_view right) }
{
    match right {
        Outcome::Whole(b) => numbers(operator, a, b),
        Outcome::Absent | Outcome::Truth(_) => Outcome::Absent,
        Outcome::Outside => Outcome::Outside,
    }
}
