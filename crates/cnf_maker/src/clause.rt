//! Literals and clauses with each literal once.

ghost use Rattle.std.specs.Prelude.{◌≡◌, [], IfOk};
ghost use Rattle.proof_steps.specs.View.{clause_view};
ghost use Rattle.proof_steps.specs.Meaning.{opposite as opposite_of};
ghost use Rattle.cnf_maker.specs.ClauseForm.{same_literal, has_literal, kept_once};

use proof_steps::{Clause, Literal};
use smallvec::SmallVec;
use std::alloc::{AllocError, Global};

/// The same flag or atom, said the other way.
pub(crate) fn opposite(literal: Literal) -> Literal
    ensures { result ≡ opposite_of literal }
{
    match literal {
        Literal::Flag(n, b) => Literal::Flag(n, !b),
        Literal::Atom(n, b) => Literal::Atom(n, !b),
    }
}

fn same(left: Literal, right: Literal) -> bool
    ensures { result ≡ same_literal left right }
{
    match (left, right) {
        (Literal::Flag(m, b), Literal::Flag(n, c)) => m == n && b == c,
        (Literal::Atom(m, b), Literal::Atom(n, c)) => m == n && b == c,
        _ => false,
    }
}

fn has(literals: &[Literal], literal: Literal) -> bool
    ensures { result ≡ has_literal literals.now literal }
{
    for other in literals {
        if same(literal, *other) {
            return true;
        }
    }
    false
}

/// The clause of these literals, each at its first place.
pub(crate) fn clause_of(alloc: Global, literals: &[Literal]) -> Result<Clause, AllocError>
    ensures { IfOk result (λ c. clause_view c ≡ kept_once [] literals.now) }
{
    let mut kept: SmallVec<Literal, 4> = SmallVec::new(alloc);
    for literal in literals {
        if !has(kept.as_slice(), *literal) {
            kept.push(*literal)?;
        }
    }
    Ok(Clause { literals: kept })
}
