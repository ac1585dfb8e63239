//! A query in clause form and a proof for it, read line by line.

use crate::parts::{atom, clause, hints, line};
use kind_num::Shape;
use proof_checker::{Fault, Refuted, check};
use proof_steps::{Atom, Clause, Line, Proof, Step};
use std::alloc::{AllocError, Global};

/// What was read so far. The lines are those of the theory step that comes next.
#[derive(Drop)]
pub struct Case {
    shapes: Vec<Shape>,
    atoms: Vec<Atom>,
    clauses: Vec<Clause>,
    proof: Proof,
    lines: Vec<Line>,
}

fn empty(alloc: Global) -> Proof {
    Proof {
        atoms: Vec::new(alloc),
        steps: Vec::new(alloc),
    }
}

impl Case {
    /// Nothing yet.
    pub fn new(alloc: Global) -> Case {
        Case {
            shapes: Vec::new(alloc),
            atoms: Vec::new(alloc),
            clauses: Vec::new(alloc),
            proof: empty(alloc),
            lines: Vec::new(alloc),
        }
    }

    /// Takes a line: `query` begins a new query, `shapes`, `atom` and `clause` are its parts, and
    /// `own` (an atom), `derived`, `line` and `theory` are those of the proof.
    pub fn take(&mut self, alloc: Global, text: &str) -> Result<(), AllocError> {
        let (kind, rest) = text.split_once(' ').unwrap_or((text, ""));
        match kind.as_bytes() {
            [b'q', ..] => *self = Case::new(alloc),
            [b's', ..] => self.take_shapes(rest)?,
            [b'a', ..] => self.atoms.push(atom(alloc, rest)?)?,
            [b'c', ..] => self.clauses.push(clause(alloc, rest)?)?,
            [b'o', ..] => self.proof.atoms.push(atom(alloc, rest)?)?,
            [b'l', ..] => self.lines.push(line(alloc, rest)?)?,
            [b'd', ..] => self.take_derived(alloc, rest)?,
            [b't', ..] => self.take_theory(alloc, rest)?,
            _ => (),
        }
        Ok(())
    }

    /// `b` is a flag, and another word a number.
    fn take_shapes(&mut self, text: &str) -> Result<(), AllocError> {
        for word in text.split_whitespace() {
            let shape = if word == "b" {
                Shape::Flag
            } else {
                Shape::Number
            };
            self.shapes.push(shape)?;
        }
        Ok(())
    }

    fn take_derived(&mut self, alloc: Global, text: &str) -> Result<(), AllocError> {
        let clause = clause(alloc, text)?;
        let hints = hints(alloc, text)?;
        Ok(self.proof.steps.push(Step::Derived { clause, hints })?)
    }

    fn take_theory(&mut self, alloc: Global, text: &str) -> Result<(), AllocError> {
        let clause = clause(alloc, text)?;
        let mut lines = Vec::new(alloc);
        lines.append(&mut self.lines)?;
        Ok(self.proof.steps.push(Step::Theory { clause, lines })?)
    }

    /// What the checker says of the proof.
    fn checked(&self, alloc: Global, proof: &Proof) -> Result<Refuted, Fault> {
        check(alloc, &self.shapes, &self.atoms, &self.clauses, proof)
    }

    /// What it says of a copy of the proof, after which an empty proof stands.
    pub fn answer(&mut self, alloc: Global) -> Result<String, AllocError> {
        let copy = self.proof.copied(alloc)?;
        self.proof = empty(alloc);
        match self.checked(alloc, &copy) {
            Ok(_) => String::from_str(alloc, "refuted"),
            Err(fault) => format!(in alloc; "{fault}"),
        }
    }
}
