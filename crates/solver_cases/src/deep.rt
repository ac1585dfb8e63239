//! Terms of 4,000 levels, one level above the other, and of more than 1,000,000 parts. In the first thread and in one that
//! it starts they are copied, compared, measured, evaluated, asked about and dropped, and their clauses are made.

use crate::parts::{cut, number, parts};
use crate::systems::both;
use crate::terms::{Operands, pop_term, read, term};
use anyhow::Result;
use cnf_maker::{Cnf, clauses};
use kind_num::Shape;
use std::alloc::{AllocError, Global};
use std::thread::{Threads, join};
use sys_terms::{Obligation, Query, State, System, Term, eval, obligation, same_term};

/// The levels of the deep terms.
const LEVELS: u32 = 4_000;

/// The words of a level, in which `#` stands for its number.
fn level_text(alloc: Global, level: &str, number: u32) -> Result<String, AllocError> {
    let number = format!(in alloc; "{number}")?;
    level.replace(alloc, "#", number.as_str())
}

/// Reads the words of the levels from `from` to `to` - 1, one above the other.
fn read_levels(
    alloc: Global,
    operands: &mut Operands,
    from: u32,
    to: u32,
    level: &str,
) -> Result<(), AllocError> {
    for number in from..to {
        let text = level_text(alloc, level, number)?;
        read(alloc, operands, text.as_str())?;
    }
    Ok(())
}

/// `LOWEST; FROM; TO; LEVEL; WHOLE`: the words of the lowest level and of the levels above it, and those of the whole;
/// `_` stands for what is made so far.
fn stacked(alloc: Global, text: &str) -> Result<Term, AllocError> {
    let parts = parts(text);
    let mut operands = Vec::new(alloc);
    read(alloc, &mut operands, parts[0])?;
    read_levels(
        alloc,
        &mut operands,
        number(parts[1]),
        number(parts[2]),
        parts[3],
    )?;
    read(alloc, &mut operands, parts[4])?;
    Ok(pop_term(&mut operands))
}

/// The leaf of that number.
fn leaf(alloc: Global, text: &str, number: u32) -> Result<Term, AllocError> {
    let text = level_text(alloc, text, number)?;
    term(alloc, text.as_str())
}

/// The And of all leaves from number `first` times 2^levels on, as many.
fn tree(alloc: Global, levels: u32, first: u32, text: &str) -> Result<Term, AllocError> {
    if levels == 0 {
        return leaf(alloc, text, first);
    }
    let double = first.wrapping_mul(2);
    let left = tree(alloc, levels - 1, double, text)?;
    let right = tree(alloc, levels - 1, double.wrapping_add(1), text)?;
    both(alloc, left, right)
}

/// A term of levels one above the other, or of `tree LEVELS; LEAF` so many levels of And above the leaves.
fn made(alloc: Global, text: &str) -> Result<Term, AllocError> {
    match text.strip_prefix("tree ") {
        Some(rest) => {
            let (levels, leaf) = cut(rest);
            tree(alloc, number(levels), 0, leaf)
        }
        None => stacked(alloc, text),
    }
}

/// A system without variables.
fn empty(alloc: Global) -> System {
    System {
        shapes: Vec::new(alloc),
        first: Vec::new(alloc),
        here: Vec::new(alloc),
        next: Vec::new(alloc),
        legal: Vec::new(alloc),
        properties: Vec::new(alloc),
    }
}

/// How many conditions ask whether the term is a lemma at the first state.
fn asked(alloc: Global, term: Term) -> Result<usize> {
    let system = empty(alloc);
    let what = Obligation::LemmaFirst(term);
    if !(system.is_mild() && system.shapes.len() == 0 && what.is_asked(&system)) {
        return Ok(0);
    }
    let query = obligation(alloc, &system, &what, &[])?;
    Ok(query.copied(alloc)?.conditions.len())
}

/// The term's truth, where it fits.
fn truth(alloc: Global, term: &Term) -> Option<bool> {
    sys_terms::laws::fitting_terms_are_divided();
    let state = State {
        values: Vec::new(alloc),
    };
    if term.fits(&[]) && term.is_present() && term.is_light() {
        eval(term, &state, &state).ok()
    } else {
        None
    }
}

/// The term's parts, whether it has at most 4,000 levels, its truth, and how often it is asked about.
fn passed(alloc: Global, term: Term) -> Result<String> {
    let copy = term.copied(alloc)?;
    let same = same_term(&term, &copy);
    let parts = term.parts();
    let within = term.is_within_levels(LEVELS);
    let truth = truth(alloc, &copy);
    let asked = asked(alloc, copy)?;
    Ok(format!(in alloc;
        "Ok(\"{parts} parts, within {within}, same {same}, {truth:?}, asked {asked}\")"
    )?)
}

/// A condition over as many numbers as there are levels.
fn wide(alloc: Global, condition: Term) -> Result<Query, AllocError> {
    let conditions = vec![in alloc; condition]?;
    Ok(Query {
        shapes: vec![in alloc; Shape::Number; LEVELS as usize]?,
        conditions,
    })
}

/// How many variables, atoms and clauses the form has.
fn counts_text(alloc: Global, form: &Cnf) -> Result<String, AllocError> {
    let (variables, atoms, clauses) = (form.shapes.len(), form.atoms.len(), form.clauses.len());
    format!(in alloc; "Ok(({variables}, {atoms}, {clauses}))")
}

/// The same of the form of a condition over as many numbers as there are levels.
fn counts(alloc: Global, condition: Term) -> Result<String> {
    let query = wide(alloc, condition)?;
    let form = clauses(alloc, &query)?;
    Ok(counts_text(alloc, &form)?)
}

/// What is done with a deep term.
#[derive(Clone, Copy)]
pub enum Walk {
    Passed,
    Counted,
}

fn answer(alloc: Global, walk: Walk, text: &str) -> Result<String> {
    let term = made(alloc, text)?;
    match walk {
        Walk::Passed => passed(alloc, term),
        Walk::Counted => counts(alloc, term),
    }
}

/// What comes of it, or why nothing does.
fn told(alloc: Global, walk: Walk, text: &str) -> Result<String, AllocError> {
    match answer(alloc, walk, text) {
        Ok(text) => Ok(text),
        Err(error) => format!(in alloc; "{error}"),
    }
}

/// What comes of a case in each thread, behind its name.
fn line(rt: &impl Threads, alloc: Global, walk: Walk, case: &str) -> Result<String, AllocError> {
    let (name, text) = cut(case);
    let here = told(alloc, walk, text)?;
    let (there, _) = join(rt, move || told(alloc, walk, text), || ());
    let there = there?;
    format!(in alloc; "{name}: {here}; {there}")
}

/// The lines of all cases, each with its end.
pub fn lines(
    rt: &impl Threads,
    alloc: Global,
    walk: Walk,
    cases: &str,
) -> Result<String, AllocError> {
    let mut lines = String::new(alloc);
    for case in cases.lines() {
        lines.push_str(line(rt, alloc, walk, case)?.as_str())?;
        lines.push_str("\n")?;
    }
    Ok(lines)
}
