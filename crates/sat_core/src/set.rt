//! Sets of literals with a mark for each literal.

ghost use Rattle.std.specs.Prelude.{◌≡◌, ◌++◌, ◌∷◌, ◌<◌, [], List, OnOk, false, get_or, length, slice_set};
ghost use Rattle.proof_checker.specs.Derived.{has, same as same_literal};
ghost use Rattle.proof_steps.specs.declared.Literal.{Literal as SignedLiteral};
ghost use Rattle.sat_core.specs.Set.{place_of, IsTied, IsCovered, IsWidened};

use proof_steps::Literal;
use std::alloc::{AllocError, Global};
use std::marker::Model;

/// The literals of a list, in order, with marks to test them by. The marks grow as literals come.
#[derive(Drop)]
pub struct LiteralSet {
    marks: Vec<bool>,
    literals: Vec<Literal>,
}

impl Model for LiteralSet {
    ghost Value = { List SignedLiteral };

    ghost view = { λ s. s.literals.items };

    ghost invariant = { λ s. IsTied s.marks.items s.literals.items };
}

/// Whether two literals are one.
pub fn same(left: Literal, right: Literal) -> bool
    ensures { result ≡ same_literal left right }
{
    match (left, right) {
        (Literal::Flag(m, b), Literal::Flag(n, c)) => m == n && b == c,
        (Literal::Atom(m, b), Literal::Atom(n, c)) => m == n && b == c,
        _ => false,
    }
}

/// Where the literal's mark stands.
pub fn place(literal: Literal) -> usize
    ensures { result ≡ place_of literal }
{
    match literal {
        Literal::Flag(number, positive) => {
            if positive {
                number as usize * 4
            } else {
                number as usize * 4 + 1
            }
        }
        Literal::Atom(number, positive) => {
            if positive {
                number as usize * 4 + 2
            } else {
                number as usize * 4 + 3
            }
        }
    }
}

/// Whether the literal is marked.
pub fn is_marked(marks: &[bool], literal: Literal) -> bool
    ensures { result ≡ get_or marks.now (place_of literal) false }
{
    match marks.get(place(literal)) {
        Some(mark) => *mark,
        None => false,
    }
}

/// Makes room for the literal's mark.
pub fn widen(marks: &mut Vec<bool>, literal: Literal) -> Result<(), AllocError>
    ensures ok { OnOk result (place_of literal < length marks.new.items) }
    ensures widened { IsWidened marks.old.items marks.new.items }
{
    let place = place(literal);
    while marks.len() <= place {
        marks.push(false)?;
    }
    Ok(())
}

/// Writes the literal's mark, where there is room for it.
pub fn mark(marks: &mut Vec<bool>, literal: Literal, to: bool)
    ensures { marks.new.items ≡ slice_set marks.old.items (place_of literal) to }
{
    let place = place(literal);
    if place < marks.len() {
        marks[place] = to;
    }
}

fn unmark_all(marks: &mut Vec<bool>, literals: &[Literal])
    requires { IsCovered marks.old.items literals.now }
    ensures { IsCovered marks.new.items [] }
{
    for literal in literals {
        mark(marks, *literal, false);
    }
}

impl LiteralSet {
    /// The empty set.
    pub fn new(alloc: Global) -> LiteralSet
        ensures { result ≡ [] }
    {
        LiteralSet {
            marks: Vec::new(alloc),
            literals: Vec::new(alloc),
        }
    }

    /// The literals in order.
    pub fn as_slice(&self) -> &[Literal]
        ensures { result.now ≡ self.now }
    {
        &self.literals
    }

    /// Whether the literal is in the set.
    pub fn has(&self, literal: Literal) -> bool
        ensures { result ≡ has self.now literal }
    {
        is_marked(&self.marks, literal)
    }

    /// Adds the literal.
    pub fn add(&mut self, literal: Literal) -> Result<(), AllocError>
        ensures { OnOk result (self.new ≡ self.old ++ literal ∷ []) }
    {
        widen(&mut self.marks, literal)?;
        self.literals.push(literal)?;
        mark(&mut self.marks, literal, true);
        Ok(())
    }

    /// Adds the literals in order.
    pub fn add_all(&mut self, clause: &[Literal]) -> Result<(), AllocError>
        ensures { OnOk result (self.new ≡ self.old ++ clause.now) }
    {
        for literal in clause {
            self.add(*literal)?;
        }
        Ok(())
    }

    /// Undoes the marks of the listed literals alone.
    pub fn clear(&mut self)
        ensures { self.new ≡ [] }
    {
        unmark_all(&mut self.marks, &self.literals);
        self.literals.clear();
    }
}
