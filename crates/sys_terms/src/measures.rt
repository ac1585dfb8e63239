//! Tests of a term by itself: whether it fits, and how heavy, how deep and how large it is.
//! None of them takes memory.

ghost use Rattle.std.specs.Prelude.{◌≡◌, ◌≤◌, ◌+◌, ◌*◌, ◌↔◌, IsTrue, unsigned_abs, min, slice_get};
ghost use Rattle.sys_terms.specs.View.{term_view, num_view};
ghost use Rattle.sys_terms.specs.Fits.{fits, amount_fits, is_flag, is_number, is_present, amount_is_present, is_light, levels, levels_of, parts, parts_of};
ghost use Rattle.sys_terms.specs.Measured.{if_light, light_weight, has_light_parts};

use crate::term::{Num, Term, Var};
use kind_num::Shape;

/// The greatest weight of a light term, 2^63.
const GREATEST_WEIGHT: u128 = 1 << 63;

fn is_flag_of(shapes: &[Shape], var: Var) -> bool
    ensures { result ≡ is_flag (slice_get shapes.now var.number) }
{
    match shapes.get(var.number as usize) {
        Some(Shape::Flag) => true,
        _ => false,
    }
}

fn is_number_of(shapes: &[Shape], var: Var) -> bool
    ensures { result ≡ is_number (slice_get shapes.now var.number) }
{
    match shapes.get(var.number as usize) {
        Some(Shape::Number) => true,
        _ => false,
    }
}

/// The weight, where it is at most 2^63.
#[tactic(auto, unfolding(crate::specs::Fits::is_light_weight))]
fn if_at_most_greatest(weight: u128) -> Option<u64>
    ensures { result ≡ if_light weight }
{
    if weight <= GREATEST_WEIGHT {
        Some(weight as u64)
    } else {
        None
    }
}

#[tactic(auto, unfolding(crate::specs::Fits::is_light_weight))]
fn product(factor: i128, weight: u64) -> Option<u64>
    ensures { result ≡ if_light (unsigned_abs factor * weight) }
{
    match factor.unsigned_abs().checked_mul(weight as u128) {
        Some(product) => if_at_most_greatest(product),
        None => None,
    }
}

/// The sum, or the greatest number where it is past that.
fn sum(left: u64, right: u64) -> u64
    ensures { result ≡ min (left + right) u64.MAX }
{
    left.saturating_add(right)
}

impl Term {
    /// Whether the term's variables are in range and of the needed shape, and no divisor is 0.
    #[cycle(fits)]
    pub fn fits(&self, shapes: &[Shape]) -> bool
        ensures { result ≡ fits shapes.now (term_view self.now) }
    {
        match self {
            Term::Truth(_) => true,
            Term::Flag(v) => is_flag_of(shapes, *v),
            Term::Not(a) => a.fits(shapes),
            Term::And(a, b) | Term::Same(a, b) => a.fits(shapes) && b.fits(shapes),
            Term::Choose(c, a, b) => c.fits(shapes) && a.fits(shapes) && b.fits(shapes),
            Term::AtMost(a, b) | Term::Equal(a, b) => a.fits(shapes) && b.fits(shapes),
        }
    }

    /// Whether the term has no variable of the next state.
    #[cycle(present)]
    pub fn is_present(&self) -> bool
        ensures { result ≡ is_present (term_view self.now) }
    {
        match self {
            Term::Truth(_) => true,
            Term::Flag(v) => !v.next,
            Term::Not(a) => a.is_present(),
            Term::And(a, b) | Term::Same(a, b) => a.is_present() && b.is_present(),
            Term::Choose(c, a, b) => c.is_present() && a.is_present() && b.is_present(),
            Term::AtMost(a, b) | Term::Equal(a, b) => a.is_present() && b.is_present(),
        }
    }

    /// Whether no number in the term has a weight above 2^63, and no divisor is above it in size.
    #[tactic(auto, using(crate::proofs::Measuring::light_parts_are_light))]
    pub fn is_light(&self) -> bool
        ensures { result ≡ is_light (term_view self.now) }
    {
        self.has_light_parts()
    }

    #[cycle(weight)]
    fn has_light_parts(&self) -> bool
        ensures { result ≡ has_light_parts (term_view self.now) }
    {
        match self {
            Term::Truth(_) | Term::Flag(_) => true,
            Term::Not(a) => a.has_light_parts(),
            Term::And(a, b) | Term::Same(a, b) => a.has_light_parts() && b.has_light_parts(),
            Term::Choose(c, a, b) => {
                c.has_light_parts() && a.has_light_parts() && b.has_light_parts()
            }
            Term::AtMost(a, b) | Term::Equal(a, b) => {
                a.light_weight().is_some() && b.light_weight().is_some()
            }
        }
    }

    /// Whether the term has no more levels than the limit. It goes no deeper than that.
    #[tactic(auto, using(crate::proofs::Measuring::one_level))]
    #[cycle(levels)]
    pub fn is_within_levels(&self, limit: u32) -> bool
        ensures { IsTrue result ↔ levels (term_view self.now) ≤ limit }
    {
        let Some(rest) = limit.checked_sub(1) else {
            return false;
        };
        match self {
            Term::Truth(_) | Term::Flag(_) => true,
            Term::Not(a) => a.is_within_levels(rest),
            Term::And(a, b) | Term::Same(a, b) => {
                a.is_within_levels(rest) && b.is_within_levels(rest)
            }
            Term::Choose(c, a, b) => {
                c.is_within_levels(rest) && a.is_within_levels(rest) && b.is_within_levels(rest)
            }
            Term::AtMost(a, b) | Term::Equal(a, b) => {
                a.is_within_levels(rest) && b.is_within_levels(rest)
            }
        }
    }

    /// How many terms and numbers the term is made of, itself among them; the greatest number of 64
    /// bits where they are more.
    #[cycle(parts)]
    pub fn parts(&self) -> u64
        ensures { result ≡ min (parts (term_view self.now)) u64.MAX }
    {
        match self {
            Term::Truth(_) | Term::Flag(_) => 1,
            Term::Not(a) => sum(1, a.parts()),
            Term::And(a, b) | Term::Same(a, b) => sum(1, sum(a.parts(), b.parts())),
            Term::Choose(c, a, b) => sum(1, sum(c.parts(), sum(a.parts(), b.parts()))),
            Term::AtMost(a, b) | Term::Equal(a, b) => sum(1, sum(a.parts(), b.parts())),
        }
    }
}

impl Num {
    #[cycle(fits)]
    fn fits(&self, shapes: &[Shape]) -> bool
        ensures { result ≡ amount_fits shapes.now (num_view self.now) }
    {
        match self {
            Num::Constant(_) => true,
            Num::Value(v) => is_number_of(shapes, *v),
            Num::Add(a, b) | Num::Sub(a, b) => a.fits(shapes) && b.fits(shapes),
            Num::Scale(_, a) => a.fits(shapes),
            Num::Choose(c, a, b) => c.fits(shapes) && a.fits(shapes) && b.fits(shapes),
            Num::Div(a, d) | Num::Mod(a, d) => a.fits(shapes) && *d != 0,
        }
    }

    #[cycle(present)]
    fn is_present(&self) -> bool
        ensures { result ≡ amount_is_present (num_view self.now) }
    {
        match self {
            Num::Constant(_) => true,
            Num::Value(v) => !v.next,
            Num::Add(a, b) | Num::Sub(a, b) => a.is_present() && b.is_present(),
            Num::Scale(_, a) | Num::Div(a, _) | Num::Mod(a, _) => a.is_present(),
            Num::Choose(c, a, b) => c.is_present() && a.is_present() && b.is_present(),
        }
    }

    /// The weight, where no part is heavier than 2^63.
    #[cycle(weight)]
    fn light_weight(&self) -> Option<u64>
        ensures { result ≡ light_weight (num_view self.now) }
    {
        match self {
            Num::Constant(n) => if_at_most_greatest(n.unsigned_abs()),
            Num::Value(_) => Some(1),
            Num::Add(a, b) | Num::Sub(a, b) => {
                let left = a.light_weight()?;
                let right = b.light_weight()?;
                if_at_most_greatest(left as u128 + right as u128)
            }
            Num::Scale(n, a) => {
                let weight = a.light_weight()?;
                product(*n, weight)
            }
            Num::Choose(c, a, b) => {
                if !c.has_light_parts() {
                    return None;
                }
                let left = a.light_weight()?;
                let right = b.light_weight()?;
                if_at_most_greatest(left.max(right).max(1) as u128)
            }
            Num::Div(a, d) => {
                let weight = a.light_weight()?;
                if_at_most_greatest(d.unsigned_abs())?;
                if_at_most_greatest(weight.max(1) as u128)
            }
            Num::Mod(a, d) => {
                a.light_weight()?;
                if_at_most_greatest(d.unsigned_abs())
            }
        }
    }

    #[tactic(auto, using(crate::proofs::Measuring::one_level_of))]
    #[cycle(levels)]
    fn is_within_levels(&self, limit: u32) -> bool
        ensures { IsTrue result ↔ levels_of (num_view self.now) ≤ limit }
    {
        let Some(rest) = limit.checked_sub(1) else {
            return false;
        };
        match self {
            Num::Constant(_) | Num::Value(_) => true,
            Num::Add(a, b) | Num::Sub(a, b) => {
                a.is_within_levels(rest) && b.is_within_levels(rest)
            }
            Num::Scale(_, a) | Num::Div(a, _) | Num::Mod(a, _) => a.is_within_levels(rest),
            Num::Choose(c, a, b) => {
                c.is_within_levels(rest) && a.is_within_levels(rest) && b.is_within_levels(rest)
            }
        }
    }

    #[cycle(parts)]
    fn parts(&self) -> u64
        ensures { result ≡ min (parts_of (num_view self.now)) u64.MAX }
    {
        match self {
            Num::Constant(_) | Num::Value(_) => 1,
            Num::Add(a, b) | Num::Sub(a, b) => sum(1, sum(a.parts(), b.parts())),
            Num::Scale(_, a) | Num::Div(a, _) | Num::Mod(a, _) => sum(1, a.parts()),
            Num::Choose(c, a, b) => sum(1, sum(c.parts(), sum(a.parts(), b.parts()))),
        }
    }
}
