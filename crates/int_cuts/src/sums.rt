ghost use Rattle.std.specs.Prelude.{◌≡◌, ◌<◌, IfOk, IfErr, IfSome, map, length, All};
ghost use Rattle.std.specs.Int.{int_div_euclid};
ghost use lib.IntN.{ℤ, pos, ◌+ℤ◌, ◌*ℤ◌};
ghost use lib.Signed.{◌<ℤ◌};
ghost use Rattle.proof_steps.specs.View.{row_view};
ghost use Rattle.proof_steps.specs.Rows.{AllDiffer};
ghost use Rattle.int_simplex.specs.Given.{column_of};
ghost use Rattle.int_simplex.specs.Farkas.{turned};
ghost use Rattle.int_simplex.specs.Making.{IsMadeTo};
ghost use Rattle.int_cuts.specs.Parts.{AreDistinct, coefficient_of, factor_of, sum_by, AreDefined, IsDefinedIn, IsStepPast, IsSumPast, AreTermsPast, IsGrown, IsNoMemory, parts_line};

use crate::parts::{Part, entry_in};
use crate::trouble::Trouble;
use kind_num::{Past, add, div_floor, mul, sub};
use proof_steps::Source;
use smallvec::SmallVec;
use std::alloc::{AllocError, Global};

// The coefficient of the variable in the part's column: its own, or that of the row that defines it.
fn coefficient(given: &[Vec<(u32, i128)>], part: &Part, variable: u32) -> i128
    requires distinct { AreDistinct (map row_view given.now) }
    requires defined { IsDefinedIn (length given.now) part.now }
    ensures { result ≡ coefficient_of (map row_view given.now) part.now variable }
{
    match part.row {
        None => if part.column == variable { 1 } else { 0 },
        Some(k) => {
            if part.column == variable {
                0
            } else {
                entry_in(&given[k], variable)
            }
        }
    }
}

// The part's limit, or the coefficient of the variable in its column.
fn factor(given: &[Vec<(u32, i128)>], part: &Part, variable: Option<u32>) -> i128
    requires distinct { AreDistinct (map row_view given.now) }
    requires defined { IsDefinedIn (length given.now) part.now }
    ensures { result ≡ factor_of (map row_view given.now) variable part.now }
{
    match variable {
        None => part.limit,
        Some(x) => coefficient(given, part, x),
    }
}

// The sum with the product, or without it for a lower bound.
fn with_product(sum: i128, upper: bool, m: i128, f: i128) -> Result<i128, Past>
    ensures sum { IfOk result (λ w. w ≡ sum +ℤ turned upper (m *ℤ f)) }
    ensures past { IfErr result (IsStepPast sum upper m f) }
{
    if f == 0 {
        return Ok(sum);
    }
    let product = mul(m, f)?;
    if upper {
        add(sum, product)
    } else {
        sub(sum, product)
    }
}

// The sum of the parts' bounds, each times its multiplier: the right side, or the coefficient of the
// variable.
fn sum_of(given: &[Vec<(u32, i128)>], parts: &[Part], variable: Option<u32>) -> Result<i128, Past>
    requires distinct { AreDistinct (map row_view given.now) }
    requires defined { AreDefined (length given.now) parts.now }
    ensures sum { IfOk result (λ z. z ≡ sum_by (map row_view given.now) variable parts.now) }
    ensures past { IfErr result (IsSumPast (map row_view given.now) variable parts.now) }
{
    let mut sum = 0;
    for p in parts {
        let f = factor(given, p, variable);
        sum = with_product(sum, p.upper, p.multiplier, f)?;
    }
    Ok(sum)
}

// The term behind the others, if its number is not 0.
fn push_term(terms: &mut SmallVec<(u32, i128), 4>, x: u32, a: i128) -> Result<(), Trouble>
    ensures grown { IfOk result (λ _. IsGrown x a terms.old.items terms.new.items) }
    ensures memory { IfErr result IsNoMemory }
{
    if a != 0 {
        terms.push((x, a))?;
    }
    Ok(())
}

// The variables with their coefficients, divided.
pub(crate) fn terms_of(
    alloc: Global,
    given: &[Vec<(u32, i128)>],
    columns: u32,
    parts: &[Part],
    d: i128,
) -> Result<SmallVec<(u32, i128), 4>, Trouble>
    requires distinct { AreDistinct (map row_view given.now) }
    requires defined { AreDefined (length given.now) parts.now }
    requires divisor { pos 0 <ℤ d }
    ensures terms { IfOk result (λ v. IsMadeTo columns
        (λ c. int_div_euclid (sum_by (map row_view given.now) (Some c) parts.now) d) v.items) }
    ensures past { IfErr result (AreTermsPast (map row_view given.now) parts.now) }
{
    let mut terms = SmallVec::new(alloc);
    for x in 0..columns {
        let sum = sum_of(given, parts, Some(x))?;
        push_term(&mut terms, x, div_floor(sum, d))?;
    }
    Ok(terms)
}

// The right side, divided and rounded down.
pub(crate) fn bound_of(given: &[Vec<(u32, i128)>], parts: &[Part], d: i128) -> Result<i128, Past>
    requires distinct { AreDistinct (map row_view given.now) }
    requires defined { AreDefined (length given.now) parts.now }
    requires divisor { pos 0 <ℤ d }
    ensures bound { IfOk result (λ z. z ≡ int_div_euclid (sum_by (map row_view given.now) None parts.now) d) }
    ensures past { IfErr result (IsSumPast (map row_view given.now) None parts.now) }
{
    let sum = sum_of(given, parts, None)?;
    Ok(div_floor(sum, d))
}

// The parts' multipliers, each with its literal.
pub(crate) fn sources_of(alloc: Global, parts: &[Part]) -> Result<Vec<(i128, Source)>, AllocError>
    ensures { IfOk result (λ v. v.items ≡ parts_line parts.now) }
{
    let mut sources = Vec::new(alloc);
    for p in parts {
        sources.push((p.multiplier, Source::Literal(p.literal)))?;
    }
    Ok(sources)
}
