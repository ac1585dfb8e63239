//! The systems of the cases, read from a text.

use crate::terms::term;
use kind_num::Shape;
use std::alloc::{AllocError, Global};
use sys_terms::{System, Term};

/// A system and its name.
#[derive(Drop)]
pub struct Named {
    pub name: String,
    pub system: System,
}

fn empty(alloc: Global) -> System {
    System {
        shapes: Vec::new(alloc),
        first: Vec::new(alloc),
        here: Vec::new(alloc),
        next: Vec::new(alloc),
        legal: Vec::new(alloc),
        properties: Vec::new(alloc),
    }
}

/// The shapes, and behind them those of these words: `b` is a flag, and another word a number.
fn push_shapes(shapes: &mut Vec<Shape>, text: &str) -> Result<(), AllocError> {
    for word in text.split_whitespace() {
        let shape = if word == "b" {
            Shape::Flag
        } else {
            Shape::Number
        };
        shapes.push(shape)?;
    }
    Ok(())
}

/// That both are true.
pub fn both(alloc: Global, a: Term, b: Term) -> Result<Term, AllocError> {
    let a = Box::new(alloc, a)?;
    Ok(Term::And(a, Box::new(alloc, b)?))
}

/// The last term and this one.
fn join(alloc: Global, terms: &mut Vec<Term>, other: Term) -> Result<(), AllocError> {
    if let Some(term) = terms.pop() {
        terms.push(both(alloc, term, other)?)?;
    }
    Ok(())
}

/// The last term and those of a text.
fn join_all(alloc: Global, terms: &mut Vec<Term>, text: &str) -> Result<(), AllocError> {
    for part in text.split(", ") {
        join(alloc, terms, term(alloc, part)?)?;
    }
    Ok(())
}

/// The list of terms to which a line with this word adds one.
fn list_of<'a>(system: &'a mut System, word: &str) -> Option<&'a mut Vec<Term>> {
    match word.as_bytes() {
        [b'f', ..] => Some(&mut system.first),
        [b'h', ..] => Some(&mut system.here),
        [b'n', ..] => Some(&mut system.next),
        [b'l', ..] => Some(&mut system.legal),
        [b'p', ..] => Some(&mut system.properties),
        _ => None,
    }
}

/// Takes a line of a system: `shapes` with a word for each variable; `first`, `here`, `next`, `legal` or `property`
/// with a term; or `and` with terms that are to be true beside the last property. Other lines say nothing.
fn take(alloc: Global, system: &mut System, line: &str) -> Result<(), AllocError> {
    let (word, rest) = line.split_once(' ').unwrap_or((line, ""));
    if word == "shapes" {
        return push_shapes(&mut system.shapes, rest);
    }
    if word == "and" {
        return join_all(alloc, &mut system.properties, rest);
    }
    if let Some(list) = list_of(system, word) {
        list.push(term(alloc, rest)?)?;
    }
    Ok(())
}

/// A system of that name, of which nothing is said yet.
fn begun(alloc: Global, name: &str) -> Result<Named, AllocError> {
    Ok(Named {
        name: String::from_str(alloc, name)?,
        system: empty(alloc),
    })
}

/// The systems of a text: `system` with a name begins one.
pub fn systems_of(alloc: Global, text: &str) -> Result<Vec<Named>, AllocError> {
    let mut systems: Vec<Named> = Vec::new(alloc);
    for line in text.lines() {
        if let Some(name) = line.strip_prefix("system ") {
            systems.push(begun(alloc, name)?)?;
        } else if let Some(named) = systems.last_mut() {
            take(alloc, &mut named.system, line)?;
        }
    }
    Ok(systems)
}
