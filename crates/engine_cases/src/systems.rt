//! The systems of the cases, each with one property, read from a text.

use crate::terms::{DEEPEST, term, words_of};
use anyhow::{Result, bail};
use kind_num::Shape;
use std::alloc::{AllocError, Global};
use sys_terms::{System, Term};

/// A system, its name, and what is taught of it.
#[derive(Drop)]
pub struct Named {
    pub name: String,
    pub system: System,
    pub lemmas: Vec<Term>,
}

fn empty(alloc: Global) -> System {
    System {
        shapes: Vec::new(alloc),
        first: Vec::new(alloc),
        here: Vec::new(alloc),
        next: Vec::new(alloc),
        legal: Vec::new(alloc),
        properties: Vec::new(alloc),
    }
}

/// The shapes, and behind them those of these words: `b` is a flag, and another word a number.
fn push_shapes(shapes: &mut Vec<Shape>, text: &str) -> Result<(), AllocError> {
    for word in text.split_whitespace() {
        let shape = if word == "b" {
            Shape::Flag
        } else {
            Shape::Number
        };
        shapes.push(shape)?;
    }
    Ok(())
}

/// The list of terms to which a line with this word adds one.
fn list_of<'a>(named: &'a mut Named, word: &str) -> Option<&'a mut Vec<Term>> {
    match word.as_bytes() {
        [b'f', ..] => Some(&mut named.system.first),
        [b'h', ..] => Some(&mut named.system.here),
        [b'n', ..] => Some(&mut named.system.next),
        [b'p', ..] => Some(&mut named.system.properties),
        [b'l', ..] => Some(&mut named.lemmas),
        _ => None,
    }
}

/// Takes a line of a system: `shapes` with a word for each variable, or `first`, `here`, `next`, `property` or `lemma`
/// with a term. Other lines say nothing.
fn take(alloc: Global, named: &mut Named, line: &str) -> Result<()> {
    let (word, rest) = line.split_once(' ').unwrap_or((line, ""));
    if word == "shapes" {
        return Ok(push_shapes(&mut named.system.shapes, rest)?);
    }
    if let Some(list) = list_of(named, word) {
        let mut words = words_of(alloc, rest)?;
        list.push(term(alloc, &mut words, DEEPEST)?)?;
    }
    Ok(())
}

/// The systems of a text: `system` with a name begins one.
pub fn systems_of(alloc: Global, text: &str) -> Result<Vec<Named>> {
    let mut systems: Vec<Named> = Vec::new(alloc);
    for line in text.lines() {
        if let Some(name) = line.strip_prefix("system ") {
            systems.push(Named {
                name: String::from_str(alloc, name)?,
                system: empty(alloc),
                lemmas: Vec::new(alloc),
            })?;
        } else if let Some(named) = systems.last_mut() {
            take(alloc, named, line)?;
        }
    }
    Ok(systems)
}

/// The system of that name.
pub fn find<'a>(systems: &'a [Named], name: &str) -> Result<&'a Named> {
    for named in systems {
        if named.name.as_str() == name {
            return Ok(named);
        }
    }
    bail!("no system has that name");
}
