//! Comparisons of sums: their literals, and clauses that bound new numbers by them.

ghost use Rattle.std.specs.Prelude.{◌≡◌, suc, true, [], ◌∷◌, IfOk, length, unsigned_abs};
ghost use lib.IntN.{pos, ◌-ℤ◌};
ghost use Rattle.sys_terms.specs.Evaluated.{and_then};
ghost use Rattle.cnf_maker.specs.Linear.{is_increasing, of_constant as constant_of, of_variable as variable_of};
ghost use Rattle.cnf_maker.specs.ClauseForm.{with_at_most, with_equal, with_bound, with_chosen, with_division};
ghost use Rattle.cnf_maker.specs.View.{Leaves, Reaches, itself, linear_view, made};

use crate::clause::opposite;
use crate::fault::CnfFault;
use crate::linear::{Linear, inequality_of, of_constant, of_division, of_variable, size_less_one};
use crate::maker::Maker;
use proof_steps::Literal;
use std::alloc::Global;

impl Maker {
    /// The literal of `left <= right`.
    pub(crate) fn at_most(
        &mut self,
        alloc: Global,
        truth: u32,
        left: &Linear,
        right: &Linear,
    ) -> Result<Literal, CnfFault>
        requires { is_increasing (linear_view right.now).terms ≡ true }
        ensures { Leaves itself (with_at_most truth (made self.old) (linear_view left.now) (linear_view right.now))
            result (made self.new) }
    {
        let key = inequality_of(alloc, left, right)?;
        Ok(self.literal_of(truth, key)?)
    }

    /// A new flag that says whether the two sums are equal.
    pub(crate) fn equal(
        &mut self,
        alloc: Global,
        truth: u32,
        left: &Linear,
        right: &Linear,
    ) -> Result<Literal, CnfFault>
        requires left { is_increasing (linear_view left.now).terms ≡ true }
        requires right { is_increasing (linear_view right.now).terms ≡ true }
        ensures { Leaves itself (with_equal truth (made self.old) (linear_view left.now) (linear_view right.now))
            result (made self.new) }
    {
        let below = self.at_most(alloc, truth, left, right)?;
        let above = self.at_most(alloc, truth, right, left)?;
        Ok(self.both(alloc, below, above)?)
    }

    /// The clause of the literal of `left <= right`.
    fn bound(
        &mut self,
        alloc: Global,
        truth: u32,
        left: &Linear,
        right: &Linear,
    ) -> Result<(), CnfFault>
        requires { is_increasing (linear_view right.now).terms ≡ true }
        ensures { Reaches (with_bound truth [] (made self.old) (linear_view left.now) (linear_view right.now))
            result (made self.new) }
    {
        let literal = self.at_most(alloc, truth, left, right)?;
        self.push(alloc, &[literal])?;
        Ok(())
    }

    /// The clause of the guard and the literal of `left <= right`.
    fn guarded(
        &mut self,
        alloc: Global,
        truth: u32,
        guard: Literal,
        left: &Linear,
        right: &Linear,
    ) -> Result<(), CnfFault>
        requires { is_increasing (linear_view right.now).terms ≡ true }
        ensures { Reaches (with_bound truth (guard ∷ []) (made self.old) (linear_view left.now) (linear_view right.now))
            result (made self.new) }
    {
        let literal = self.at_most(alloc, truth, left, right)?;
        self.push(alloc, &[guard, literal])?;
        Ok(())
    }

    /// A new number that is the first sum where the condition is true, else the second.
    pub(crate) fn chosen(
        &mut self,
        alloc: Global,
        truth: u32,
        condition: Literal,
        first: &Linear,
        second: &Linear,
    ) -> Result<Linear, CnfFault>
        requires first { is_increasing (linear_view first.now).terms ≡ true }
        requires second { is_increasing (linear_view second.now).terms ≡ true }
        ensures exact { Leaves linear_view
            (with_chosen truth (made self.old) condition (linear_view first.now) (linear_view second.now))
            result (made self.new) }
        ensures increasing { IfOk result (λ l. is_increasing (linear_view l).terms ≡ true) }
    {
        let number = self.number()?;
        let chosen = of_variable(alloc, number)?;
        self.guarded(alloc, truth, opposite(condition), &chosen, first)?;
        self.guarded(alloc, truth, opposite(condition), first, &chosen)?;
        self.guarded(alloc, truth, condition, &chosen, second)?;
        self.guarded(alloc, truth, condition, second, &chosen)?;
        Ok(chosen)
    }

    /// New numbers q and r, the quotient and the remainder of the sum by d.
    pub(crate) fn division(
        &mut self,
        alloc: Global,
        truth: u32,
        sum: &Linear,
        d: i128,
    ) -> Result<(u32, u32), CnfFault>
        requires { is_increasing (linear_view sum.now).terms ≡ true }
        ensures exact { Reaches (with_division truth (made self.old) (linear_view sum.now) d) result (made self.new) }
        ensures quotient { IfOk result (λ p. p.0 ≡ length (made self.old).shapes) }
        ensures remainder { IfOk result (λ p. p.1 ≡ suc (length (made self.old).shapes)) }
    {
        let (q, r) = self.two_numbers()?;
        let whole = of_division(alloc, q, r, d)?;
        self.bound(alloc, truth, &whole, sum)?;
        self.bound(alloc, truth, sum, &whole)?;
        self.bound_remainder(alloc, truth, r, d)?;
        Ok((q, r))
    }

    /// The clauses by which r is from 0 to the size of d less 1.
    fn bound_remainder(
        &mut self,
        alloc: Global,
        truth: u32,
        r: u32,
        d: i128,
    ) -> Result<(), CnfFault>
        ensures { Reaches (and_then (with_bound truth [] (made self.old) (constant_of (pos 0)) (variable_of r))
            (λ f. with_bound truth [] f (variable_of r) (constant_of (pos (unsigned_abs d) -ℤ pos 1))))
            result (made self.new) }
    {
        let remainder = of_variable(alloc, r)?;
        self.bound(alloc, truth, &of_constant(alloc, 0), &remainder)?;
        self.bound(
            alloc,
            truth,
            &remainder,
            &of_constant(alloc, size_less_one(d)),
        )
    }
}
