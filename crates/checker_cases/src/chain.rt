//! A chain of implications and its refutation, as large as is wished, for the benchmark of the checker.

use kind_num::Shape;
use proof_checker::check;
use proof_steps::{Atom, Clause, Line, Literal, Proof, Source, Step};
use smallvec::SmallVec;
use std::alloc::{AllocError, Global};

/// A query in clause form with a refutation of it.
#[derive(Drop)]
pub struct Refutation {
    pub shapes: Vec<Shape>,
    pub atoms: Vec<Atom>,
    pub clauses: Vec<Clause>,
    pub proof: Proof,
}

fn clause(alloc: Global, literals: &[Literal]) -> Result<Clause, AllocError> {
    Ok(Clause {
        literals: SmallVec::from_slice(alloc, literals)?,
    })
}

fn derived(alloc: Global, literals: &[Literal], hints: &[u32]) -> Result<Step, AllocError> {
    let clause = clause(alloc, literals)?;
    let hints = Vec::from_slice(alloc, hints)?;
    Ok(Step::Derived { clause, hints })
}

/// Flag 0, from each flag the next one, and not flag n.
fn implications(alloc: Global, n: u32) -> Result<Vec<Clause>, AllocError> {
    let mut clauses = Vec::new(alloc);
    clauses.push(clause(alloc, &[Literal::Flag(0, true)])?)?;
    for i in 0..n {
        let next = Literal::Flag(i.saturating_add(1), true);
        clauses.push(clause(alloc, &[Literal::Flag(i, false), next])?)?;
    }
    clauses.push(clause(alloc, &[Literal::Flag(n, false)])?)?;
    Ok(clauses)
}

/// Each flag from the one before, and then the empty clause.
fn push_chain(alloc: Global, steps: &mut Vec<Step>, n: u32) -> Result<(), AllocError> {
    let last = n.saturating_add(2);
    let mut before = 1;
    for i in 0..n {
        let next = Literal::Flag(i.saturating_add(1), true);
        steps.push(derived(alloc, &[next], &[before, i.saturating_add(2)])?)?;
        before = last.saturating_add(i).saturating_add(1);
    }
    steps.push(derived(alloc, &[], &[before, last])?)?;
    Ok(())
}

/// `x0 <= x1 <= .. <= x0 - 1` over the n numbers from `first` on.
fn circle(alloc: Global, first: u32, n: u32) -> Result<Vec<Atom>, AllocError> {
    let mut atoms = Vec::new(alloc);
    for i in 1..n {
        let number = first.saturating_add(i);
        atoms.push(Atom {
            terms: SmallVec::from_slice(alloc, &[(number.saturating_sub(1), 1), (number, -1)])?,
            bound: 0,
        })?;
    }
    let number = first.saturating_add(n).saturating_sub(1);
    atoms.push(Atom {
        terms: SmallVec::from_slice(alloc, &[(first, -1), (number, 1)])?,
        bound: -1,
    })?;
    Ok(atoms)
}

/// One line for each atom, which adds it to the line before; the last is `0 <= -1`.
fn running_sum(alloc: Global, n: u32) -> Result<Vec<Line>, AllocError> {
    let mut lines = Vec::new(alloc);
    for i in 0..n {
        let own = (1, Source::Literal(i.saturating_add(1)));
        let before = (1, Source::Line(i));
        let parts = if i == 0 {
            Vec::from_slice(alloc, &[own])?
        } else {
            Vec::from_slice(alloc, &[before, own])?
        };
        lines.push(Line { parts, divisor: 1 })?;
    }
    Ok(lines)
}

/// That the n atoms aren't all true, by a line for each.
fn theory(alloc: Global, n: u32) -> Result<Step, AllocError> {
    let mut literals = SmallVec::new(alloc);
    for i in 0..n {
        literals.push(Literal::Atom(i.saturating_add(1), false))?;
    }
    Ok(Step::Theory {
        clause: Clause { literals },
        lines: running_sum(alloc, n)?,
    })
}

/// A chain of n implications over the flags 0 to n, and where `lines` says so a theory step of n
/// lines over n numbers.
pub fn chain(alloc: Global, n: u32, lines: bool) -> Result<Refutation, AllocError> {
    let flags = n.saturating_add(1);
    let mut shapes = vec![in alloc; Shape::Flag; flags as usize]?;
    let mut atoms = Vec::new(alloc);
    let mut steps = Vec::new(alloc);
    if lines {
        shapes.extend_from_slice(&vec![in alloc; Shape::Number; n as usize]?)?;
        atoms = circle(alloc, flags, n)?;
    }
    push_chain(alloc, &mut steps, n)?;
    if lines {
        steps.push(theory(alloc, n)?)?;
    }
    Ok(Refutation {
        shapes,
        atoms,
        clauses: implications(alloc, n)?,
        proof: Proof {
            atoms: Vec::new(alloc),
            steps,
        },
    })
}

impl Refutation {
    /// How many steps are accepted: none where one is refused.
    pub fn accepted(&self, alloc: Global) -> usize {
        match check(alloc, &self.shapes, &self.atoms, &self.clauses, &self.proof) {
            Ok(_) => self.proof.steps.len(),
            Err(_) => 0,
        }
    }
}
