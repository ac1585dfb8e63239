//! A clause form in the making: its variables, atoms and clauses so far.

ghost use Rattle.std.specs.Prelude.{◌≡◌, suc, [], ◌∷◌, IfOk, length};
ghost use Rattle.kind_num.specs.declared.Shape.TheVariants.{Number};
ghost use Rattle.cnf_maker.specs.View.{key_view, made};
ghost use Rattle.cnf_maker.specs.ClauseForm.{with_clause, with_shapes, with_flag, with_both, with_same, with_choice_of, literal_of_atom, literal_of_inequality};

use crate::clause::{clause_of, opposite};
use crate::linear::AtomKey;
use indexmap::IndexSet;
use kind_num::Shape;
use proof_steps::{Clause, Literal};
use std::alloc::{AllocError, Global};

/// A clause form in the making. Atoms are found by hashing; each stands once, in the order in which
/// it was made.
#[derive(Drop)]
pub(crate) struct Maker {
    pub(crate) shapes: Vec<Shape>,
    pub(crate) atoms: IndexSet<AtomKey>,
    pub(crate) clauses: Vec<Clause>,
}

impl Maker {
    /// A clause of these literals, each once.
    pub(crate) fn push(&mut self, alloc: Global, literals: &[Literal]) -> Result<(), AllocError>
        ensures { IfOk result (λ _. made self.new ≡ with_clause (made self.old) literals.now) }
    {
        self.clauses.push(clause_of(alloc, literals)?)?;
        Ok(())
    }

    /// The number of the next variable.
    fn next_variable(&self) -> Result<u32, AllocError>
        ensures { IfOk result (λ n. n ≡ length (made self.now).shapes) }
    {
        match u32::try_from(self.shapes.len()) {
            Ok(number) => Ok(number),
            Err(_) => Err(AllocError),
        }
    }

    /// A new flag.
    fn flag(&mut self) -> Result<u32, AllocError>
        ensures number { IfOk result (λ n. n ≡ length (made self.old).shapes) }
        ensures form { IfOk result (λ n. made self.new ≡ with_flag (made self.old)) }
    {
        let number = self.next_variable()?;
        self.shapes.push(Shape::Flag)?;
        Ok(number)
    }

    /// A new number.
    pub(crate) fn number(&mut self) -> Result<u32, AllocError>
        ensures number { IfOk result (λ n. n ≡ length (made self.old).shapes) }
        ensures form { IfOk result (λ n. made self.new ≡ with_shapes (made self.old) (Number ∷ [])) }
    {
        let number = self.next_variable()?;
        self.shapes.push(Shape::Number)?;
        Ok(number)
    }

    /// Two new numbers, one after the other.
    pub(crate) fn two_numbers(&mut self) -> Result<(u32, u32), AllocError>
        ensures first { IfOk result (λ p. p.0 ≡ length (made self.old).shapes) }
        ensures second { IfOk result (λ p. p.1 ≡ suc p.0) }
        ensures form { IfOk result (λ p. made self.new ≡ with_shapes (made self.old) (Number ∷ Number ∷ [])) }
    {
        let first = self.number()?;
        let second = self.number()?;
        Ok((first, second))
    }

    /// A new flag that is both.
    pub(crate) fn both(
        &mut self,
        alloc: Global,
        a: Literal,
        b: Literal,
    ) -> Result<Literal, AllocError>
        ensures { IfOk result (λ e. (made self.new, e) ≡ with_both (made self.old) a b) }
    {
        let n = self.flag()?;
        let e = Literal::Flag(n, true);
        let d = Literal::Flag(n, false);
        self.push(alloc, &[d, a])?;
        self.push(alloc, &[d, b])?;
        self.push(alloc, &[e, opposite(a), opposite(b)])?;
        Ok(e)
    }

    /// A new flag that says whether the two are the same.
    pub(crate) fn same(
        &mut self,
        alloc: Global,
        a: Literal,
        b: Literal,
    ) -> Result<Literal, AllocError>
        ensures { IfOk result (λ e. (made self.new, e) ≡ with_same (made self.old) a b) }
    {
        let n = self.flag()?;
        let e = Literal::Flag(n, true);
        let d = Literal::Flag(n, false);
        self.push(alloc, &[d, opposite(a), b])?;
        self.push(alloc, &[d, a, opposite(b)])?;
        self.push(alloc, &[e, a, b])?;
        self.push(alloc, &[e, opposite(a), opposite(b)])?;
        Ok(e)
    }

    /// A new flag that is the second where the first is true, else the third.
    pub(crate) fn choice(
        &mut self,
        alloc: Global,
        c: Literal,
        a: Literal,
        b: Literal,
    ) -> Result<Literal, AllocError>
        ensures { IfOk result (λ e. (made self.new, e) ≡ with_choice_of (made self.old) c a b) }
    {
        let n = self.flag()?;
        let e = Literal::Flag(n, true);
        let d = Literal::Flag(n, false);
        self.push(alloc, &[opposite(c), opposite(a), e])?;
        self.push(alloc, &[opposite(c), a, d])?;
        self.push(alloc, &[c, opposite(b), e])?;
        self.push(alloc, &[c, b, d])?;
        Ok(e)
    }

    /// The literal of an inequality with variables: its atom, which is made where none is equal.
    fn atom(&mut self, key: AtomKey) -> Result<Literal, AllocError>
        ensures { IfOk result (λ l. (made self.new, l) ≡ literal_of_atom (made self.old) (key_view key)) }
    {
        let (place, _) = self.atoms.insert_full(key)?;
        match u32::try_from(place) {
            Ok(place) if place < u32::MAX => Ok(Literal::Atom(place + 1, true)),
            _ => Err(AllocError),
        }
    }

    /// The literal of an inequality: its atom, or the truth or its opposite where it has no variable.
    pub(crate) fn literal_of(&mut self, truth: u32, key: AtomKey) -> Result<Literal, AllocError>
        ensures { IfOk result (λ l. (made self.new, l) ≡ literal_of_inequality truth (made self.old) (key_view key)) }
    {
        if key.0.is_empty() {
            Ok(Literal::Flag(truth, 0 <= key.1))
        } else {
            self.atom(key)
        }
    }
}
