//! The walk over a term: operands from left to right before their operator. What few terms need stands in functions that
//! are not inlined, so that a level of a deep term takes little of the stack.

ghost use Rattle.std.specs.Prelude.{◌≡◌, true, IfOk};
ghost use Rattle.sys_terms.specs.View.{term_view, num_view, same, choice, equal, minus, chosen, remainder};
ghost use Rattle.cnf_maker.specs.Linear.{is_increasing};
ghost use Rattle.cnf_maker.specs.ClauseForm.{literal_of, linear_of};
ghost use Rattle.cnf_maker.specs.View.{Leaves, itself, linear_view, made};

use crate::clause::opposite;
use crate::fault::CnfFault;
use crate::linear::{Linear, Sign, combined, of_constant, of_variable, scaled};
use crate::maker::Maker;
use proof_steps::Literal;
use std::alloc::Global;
use sys_terms::{Num, Term};

impl Maker {
    /// The literal of a term.
    #[cycle(literal)]
    pub(crate) fn literal(
        &mut self,
        alloc: Global,
        truth: u32,
        term: &Term,
    ) -> Result<Literal, CnfFault>
        ensures { Leaves itself (literal_of truth (made self.old) (term_view term.now)) result (made self.new) }
    {
        match term {
            Term::Truth(b) => Ok(Literal::Flag(truth, *b)),
            Term::Flag(v) => Ok(Literal::Flag(v.number, true)),
            Term::Not(a) => Ok(opposite(self.literal(alloc, truth, a)?)),
            Term::And(a, b) => {
                let left = self.literal(alloc, truth, a)?;
                let right = self.literal(alloc, truth, b)?;
                Ok(self.both(alloc, left, right)?)
            }
            Term::Same(a, b) => self.same_of(alloc, truth, a, b),
            Term::Choose(c, a, b) => self.choice_of(alloc, truth, c, a, b),
            Term::AtMost(a, b) => {
                let left = self.linear(alloc, truth, a)?;
                let right = self.linear(alloc, truth, b)?;
                self.at_most(alloc, truth, &left, &right)
            }
            Term::Equal(a, b) => self.equal_of(alloc, truth, a, b),
        }
    }

    /// The literal that says whether the two terms are the same.
    #[cycle(literal)]
    #[inline(never)]
    fn same_of(
        &mut self,
        alloc: Global,
        truth: u32,
        left: &Term,
        right: &Term,
    ) -> Result<Literal, CnfFault>
        ensures { Leaves itself (literal_of truth (made self.old) (same (term_view left.now) (term_view right.now)))
            result (made self.new) }
    {
        let left = self.literal(alloc, truth, left)?;
        let right = self.literal(alloc, truth, right)?;
        Ok(self.same(alloc, left, right)?)
    }

    /// The literal of the second term where the first is true, else of the third.
    #[cycle(literal)]
    #[inline(never)]
    fn choice_of(
        &mut self,
        alloc: Global,
        truth: u32,
        condition: &Term,
        first: &Term,
        second: &Term,
    ) -> Result<Literal, CnfFault>
        ensures { Leaves itself (literal_of truth (made self.old)
            (choice (term_view condition.now) (term_view first.now) (term_view second.now)))
            result (made self.new) }
    {
        let condition = self.literal(alloc, truth, condition)?;
        let first = self.literal(alloc, truth, first)?;
        let second = self.literal(alloc, truth, second)?;
        Ok(self.choice(alloc, condition, first, second)?)
    }

    /// The literal that says whether the two numbers are equal.
    #[cycle(literal)]
    #[inline(never)]
    fn equal_of(
        &mut self,
        alloc: Global,
        truth: u32,
        left: &Num,
        right: &Num,
    ) -> Result<Literal, CnfFault>
        ensures { Leaves itself (literal_of truth (made self.old) (equal (num_view left.now) (num_view right.now)))
            result (made self.new) }
    {
        let left = self.linear(alloc, truth, left)?;
        let right = self.linear(alloc, truth, right)?;
        self.equal(alloc, truth, &left, &right)
    }

    /// The linear sum of a number.
    #[cycle(literal)]
    fn linear(&mut self, alloc: Global, truth: u32, num: &Num) -> Result<Linear, CnfFault>
        ensures exact { Leaves linear_view (linear_of truth (made self.old) (num_view num.now)) result (made self.new) }
        ensures increasing { IfOk result (λ l. is_increasing (linear_view l).terms ≡ true) }
    {
        match num {
            Num::Constant(n) => Ok(of_constant(alloc, *n)),
            Num::Value(v) => Ok(of_variable(alloc, v.number)?),
            Num::Add(a, b) => {
                let left = self.linear(alloc, truth, a)?;
                let right = self.linear(alloc, truth, b)?;
                combined(alloc, Sign::Plus, &left, &right)
            }
            Num::Sub(a, b) => self.difference_of(alloc, truth, a, b),
            Num::Scale(n, a) => {
                let sum = self.linear(alloc, truth, a)?;
                scaled(alloc, *n, &sum)
            }
            Num::Choose(c, a, b) => self.chosen_of(alloc, truth, c, a, b),
            Num::Div(a, d) => {
                let sum = self.linear(alloc, truth, a)?;
                let (q, _) = self.division(alloc, truth, &sum, *d)?;
                Ok(of_variable(alloc, q)?)
            }
            Num::Mod(a, d) => self.remainder_of(alloc, truth, a, *d),
        }
    }

    /// The linear sum of the first number less the second.
    #[cycle(literal)]
    #[inline(never)]
    fn difference_of(
        &mut self,
        alloc: Global,
        truth: u32,
        left: &Num,
        right: &Num,
    ) -> Result<Linear, CnfFault>
        ensures exact { Leaves linear_view
            (linear_of truth (made self.old) (minus (num_view left.now) (num_view right.now)))
            result (made self.new) }
        ensures increasing { IfOk result (λ l. is_increasing (linear_view l).terms ≡ true) }
    {
        let left = self.linear(alloc, truth, left)?;
        let right = self.linear(alloc, truth, right)?;
        combined(alloc, Sign::Minus, &left, &right)
    }

    /// The linear sum of the first number where the condition is true, else of the second.
    #[cycle(literal)]
    #[inline(never)]
    fn chosen_of(
        &mut self,
        alloc: Global,
        truth: u32,
        condition: &Term,
        first: &Num,
        second: &Num,
    ) -> Result<Linear, CnfFault>
        ensures exact { Leaves linear_view (linear_of truth (made self.old)
            (chosen (term_view condition.now) (num_view first.now) (num_view second.now)))
            result (made self.new) }
        ensures increasing { IfOk result (λ l. is_increasing (linear_view l).terms ≡ true) }
    {
        let condition = self.literal(alloc, truth, condition)?;
        let first = self.linear(alloc, truth, first)?;
        let second = self.linear(alloc, truth, second)?;
        self.chosen(alloc, truth, condition, &first, &second)
    }

    /// The linear sum of what a division by d leaves.
    #[cycle(literal)]
    #[inline(never)]
    fn remainder_of(
        &mut self,
        alloc: Global,
        truth: u32,
        num: &Num,
        d: i128,
    ) -> Result<Linear, CnfFault>
        ensures exact { Leaves linear_view (linear_of truth (made self.old) (remainder (num_view num.now) d))
            result (made self.new) }
        ensures increasing { IfOk result (λ l. is_increasing (linear_view l).terms ≡ true) }
    {
        let sum = self.linear(alloc, truth, num)?;
        let (_, r) = self.division(alloc, truth, &sum, d)?;
        Ok(of_variable(alloc, r)?)
    }
}
