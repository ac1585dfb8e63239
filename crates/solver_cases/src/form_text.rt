//! Clause forms as text: `b` for flags, `a` for atoms, `x` for numbers.

use cnf_maker::{Cnf, CnfFault};
use kind_num::{Op, Past};
use proof_steps::{Atom, Clause, Literal};
use std::alloc::{AllocError, Global};

fn literal_text(alloc: Global, literal: Literal) -> Result<String, AllocError> {
    match literal {
        Literal::Flag(n, true) => format!(in alloc; "b{n}"),
        Literal::Flag(n, false) => format!(in alloc; "-b{n}"),
        Literal::Atom(n, true) => format!(in alloc; "a{n}"),
        Literal::Atom(n, false) => format!(in alloc; "-a{n}"),
    }
}

fn clause_text(alloc: Global, clause: &Clause) -> Result<String, AllocError> {
    let mut text = String::new(alloc);
    for literal in clause.literals.as_slice() {
        if !text.is_empty() {
            text.push_str(" ")?;
        }
        text.push_str(literal_text(alloc, *literal)?.as_str())?;
    }
    Ok(text)
}

fn atom_text(alloc: Global, atom: &Atom) -> Result<String, AllocError> {
    let mut text = String::new(alloc);
    for (x, a) in atom.terms.as_slice() {
        text.push_str(format!(in alloc; "{a}*x{x} ")?.as_str())?;
    }
    text.push_str(format!(in alloc; "<= {}", atom.bound)?.as_str())?;
    Ok(text)
}

fn atoms_text(alloc: Global, atoms: &[Atom]) -> Result<String, AllocError> {
    let mut text = String::new(alloc);
    for atom in atoms {
        text.push_str("; ")?;
        text.push_str(atom_text(alloc, atom)?.as_str())?;
    }
    Ok(text)
}

fn clauses_text(alloc: Global, clauses: &[Clause]) -> Result<String, AllocError> {
    let mut text = String::new(alloc);
    for clause in clauses {
        text.push_str("; ")?;
        text.push_str(clause_text(alloc, clause)?.as_str())?;
    }
    Ok(text)
}

fn sign(op: Op) -> &'static str {
    match op {
        Op::Add => "+",
        Op::Sub => "-",
        Op::Mul => "*",
        Op::Div => "div",
    }
}

fn past_text(alloc: Global, past: Past) -> Result<String, AllocError> {
    format!(in alloc; "past {} {} {}", sign(past.op), past.left, past.right)
}

fn cnf_text(alloc: Global, cnf: &Cnf) -> Result<String, AllocError> {
    let atoms = atoms_text(alloc, &cnf.atoms)?;
    let clauses = clauses_text(alloc, &cnf.clauses)?;
    format!(in alloc; "{} variables{clauses}{atoms}", cnf.shapes.len())
}

/// The clauses and then the atoms, in order, or why there are none.
pub fn form_text(alloc: Global, form: &Result<Cnf, CnfFault>) -> Result<String, AllocError> {
    match form {
        Ok(cnf) => cnf_text(alloc, cnf),
        Err(CnfFault::Past(past)) => past_text(alloc, *past),
        Err(CnfFault::Memory) => Err(AllocError),
    }
}
