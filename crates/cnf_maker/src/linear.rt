//! Sums of variables with coefficients, made within 128 bits.

ghost use Rattle.std.specs.Prelude.{◌≡◌, ◌≤◌, ◌<◌, ◌+◌, ◌++◌, [], ◌∷◌, true, length, suc, unsigned_abs, slice_index_or, Ok, IfOk, OnOk, drop};
ghost use lib.IntN.{ℤ, pos, ◌-ℤ◌};
ghost use Rattle.kind_num.specs.declared.Op.{Op as Operation};
ghost use Rattle.kind_num.specs.declared.Op.TheVariants.{Mul, Sub};
ghost use Rattle.sys_terms.specs.Evaluated.{exact};
ghost use Rattle.cnf_maker.specs.Linear.{put as put_of, with_terms, scaled_terms as scaled_terms_of, combined as combined_of, scaled as scaled_of, of_constant as constant_of, of_variable as variable_of, inequality_of as inequality_for, is_increasing};
ghost use Rattle.cnf_maker.specs.ClauseForm.{of_division as division_of};
ghost use Rattle.cnf_maker.specs.View.{linear_view, key_view, op_of, Gives, Goes};
ghost use Rattle.cnf_maker.specs.Joining.{HasAt, pending};

use crate::fault::CnfFault;
use kind_num::{add, mul, sub};
use std::alloc::{AllocError, Global};

/// A variable with its coefficient.
pub(crate) type Summand = (u32, i128);

/// A sum of variables in increasing order, none with the coefficient 0, and a constant.
#[derive(Drop)]
pub(crate) struct Linear {
    pub(crate) terms: Vec<Summand>,
    pub(crate) constant: i128,
}

/// Whether a second sum is added to a first, or taken away from it.
#[derive(Clone, Copy)]
pub(crate) enum Sign {
    Plus,
    Minus,
}

pub(crate) fn of_constant(alloc: Global, n: i128) -> Linear
    ensures exact { linear_view result ≡ constant_of n }
    ensures increasing { is_increasing (linear_view result).terms ≡ true }
{
    Linear {
        terms: Vec::new(alloc),
        constant: n,
    }
}

pub(crate) fn of_variable(alloc: Global, x: u32) -> Result<Linear, AllocError>
    ensures exact { IfOk result (λ l. linear_view l ≡ variable_of x) }
    ensures increasing { IfOk result (λ l. is_increasing (linear_view l).terms ≡ true) }
{
    let mut terms = Vec::new(alloc);
    terms.push((x, 1))?;
    Ok(Linear { terms, constant: 0 })
}

/// The sum `d * q + r`, where r is the variable after q.
pub(crate) fn of_division(alloc: Global, q: u32, r: u32, d: i128) -> Result<Linear, AllocError>
    requires { r ≡ suc q }
    ensures exact { IfOk result (λ l. linear_view l ≡ division_of q d) }
    ensures increasing { IfOk result (λ l. is_increasing (linear_view l).terms ≡ true) }
{
    let mut terms = Vec::new(alloc);
    terms.push((q, d))?;
    terms.push((r, 1))?;
    Ok(Linear { terms, constant: 0 })
}

/// The size of a divisor less 1.
pub(crate) fn size_less_one(d: i128) -> i128
    ensures { result ≡ pos (unsigned_abs d) -ℤ pos 1 }
{
    if 0 < d { d - 1 } else { -1 - d }
}

fn joined(sign: Sign, left: i128, right: i128) -> Result<i128, CnfFault>
    ensures { Gives (λ z. z) (exact (op_of sign) left right) result }
{
    let joined = match sign {
        Sign::Plus => add(left, right)?,
        Sign::Minus => sub(left, right)?,
    };
    Ok(joined)
}

fn product(left: i128, right: i128) -> Result<i128, CnfFault>
    ensures { Gives (λ z. z) (exact Mul left right) result }
{
    Ok(mul(left, right)?)
}

fn put(sum: &mut Vec<Summand>, x: u32, coefficient: i128) -> Result<(), AllocError>
    ensures { OnOk result (sum.new.items ≡ sum.old.items ++ put_of x coefficient []) }
{
    if coefficient != 0 {
        sum.push((x, coefficient))?;
    }
    Ok(())
}

/// The coefficient of x at the place i of a sum, 0 where it has none there, and the place after it.
fn coefficient(left: &[Summand], i: usize, x: u32) -> (i128, usize)
    requires within { i ≤ length left.now }
    requires reached { i < length left.now → x ≤ (slice_index_or left.now i (0, pos 0)).0 }
    ensures found { (op : Operation) (b : ℤ) → HasAt op (drop i left.now) x b result.0 (drop result.1 left.now) }
    ensures within { result.1 ≤ length left.now }
    ensures onward { i ≤ result.1 }
{
    if i < left.len() && left[i].0 == x {
        (left[i].1, i + 1)
    } else {
        (0, i)
    }
}

/// The next term of a sum: one of the left sum before the right one's at j, or else that one.
fn step(
    sign: Sign,
    left: &[Summand],
    right: &[Summand],
    i: usize,
    j: usize,
    sum: &mut Vec<Summand>,
) -> Result<(usize, usize), CnfFault>
    requires within { i ≤ length left.now }
    requires more { j < length right.now }
    requires increasing { is_increasing (drop j right.now) ≡ true }
    ensures exact { Goes (pending (op_of sign) sum.old.items (drop i left.now) (drop j right.now)) result
        (λ p. pending (op_of sign) sum.new.items (drop p.0 left.now) (drop p.1 right.now)) }
    ensures left_within { IfOk result (λ p. p.0 ≤ length left.now) }
    ensures right_within { IfOk result (λ p. p.1 ≤ length right.now) }
    ensures onward { IfOk result (λ p. i + j < p.0 + p.1) }
    ensures increasing { IfOk result (λ p. is_increasing (drop p.1 right.now) ≡ true) }
{
    if i < left.len() && left[i].0 < right[j].0 {
        sum.push(left[i])?;
        return Ok((i + 1, j));
    }
    let (x, b) = right[j];
    let (a, after) = coefficient(left, i, x);
    put(sum, x, joined(sign, a, b)?)?;
    Ok((after, j + 1))
}

fn joined_terms(
    alloc: Global,
    sign: Sign,
    left: &[Summand],
    right: &[Summand],
) -> Result<Vec<Summand>, CnfFault>
    requires { is_increasing right.now ≡ true }
    ensures { Gives (λ v. v.items) (with_terms (op_of sign) left.now right.now) result }
{
    let mut sum = Vec::new(alloc);
    let mut i = 0;
    let mut j = 0;
    while j < right.len() {
        let (next, other) = step(sign, left, right, i, j, &mut sum)?;
        i = next;
        j = other;
    }
    sum.extend_from_slice(&left[i..])?;
    Ok(sum)
}

/// The sum or the difference of two.
pub(crate) fn combined(
    alloc: Global,
    sign: Sign,
    left: &Linear,
    right: &Linear,
) -> Result<Linear, CnfFault>
    requires left { is_increasing (linear_view left.now).terms ≡ true }
    requires right { is_increasing (linear_view right.now).terms ≡ true }
    ensures exact { Gives linear_view (combined_of (op_of sign) (linear_view left.now) (linear_view right.now)) result }
    ensures increasing { IfOk result (λ l. is_increasing (linear_view l).terms ≡ true) }
{
    let terms = joined_terms(alloc, sign, &left.terms, &right.terms)?;
    let constant = joined(sign, left.constant, right.constant)?;
    Ok(Linear { terms, constant })
}

fn scaled_terms(alloc: Global, n: i128, terms: &[Summand]) -> Result<Vec<Summand>, CnfFault>
    ensures { Gives (λ v. v.items) (scaled_terms_of n terms.now) result }
{
    let mut products = Vec::with_capacity(alloc, terms.len())?;
    for (x, a) in terms {
        put(&mut products, *x, product(n, *a)?)?;
    }
    Ok(products)
}

/// The sum with each coefficient and the constant times n.
pub(crate) fn scaled(alloc: Global, n: i128, sum: &Linear) -> Result<Linear, CnfFault>
    requires { is_increasing (linear_view sum.now).terms ≡ true }
    ensures exact { Gives linear_view (scaled_of n (linear_view sum.now)) result }
    ensures increasing { IfOk result (λ l. is_increasing (linear_view l).terms ≡ true) }
{
    let terms = scaled_terms(alloc, n, &sum.terms)?;
    let constant = product(n, sum.constant)?;
    Ok(Linear { terms, constant })
}

/// An inequality: its terms and its bound.
pub(crate) type AtomKey = (Vec<Summand>, i128);

/// The inequality that the left sum is at most the right one.
pub(crate) fn inequality_of(
    alloc: Global,
    left: &Linear,
    right: &Linear,
) -> Result<AtomKey, CnfFault>
    requires { is_increasing (linear_view right.now).terms ≡ true }
    ensures { Gives key_view (inequality_for (linear_view left.now) (linear_view right.now)) result }
{
    let terms = joined_terms(alloc, Sign::Minus, &left.terms, &right.terms)?;
    let bound = joined(Sign::Minus, right.constant, left.constant)?;
    Ok((terms, bound))
}
