//! Paths of systems, and values of terms.

ghost use Rattle.sys_terms.specs.View.{system_view};
ghost use Rattle.solver_cases.specs.Ready.{IsReady};

use crate::given::{Given, ready};
use crate::parts::{cut, long_number, number, parts};
use crate::term_text::term_text;
use crate::terms::term;
use anyhow::Result;
use kind_num::Shape;
use std::alloc::{AllocError, Global};
use sys_terms::{Entry, State, System, Term, check_path, eval, same_term};

/// `true` and `false` are flags, other words numbers.
fn entry(word: &str) -> Entry {
    match word.as_bytes() {
        [b't', ..] => Entry::Flag(true),
        [b'f', ..] => Entry::Flag(false),
        _ => Entry::Number(long_number(word)),
    }
}

/// The state of words such as `true 5`.
fn state(alloc: Global, text: &str) -> Result<State, AllocError> {
    let mut values = Vec::new(alloc);
    for word in text.split_whitespace() {
        values.push(entry(word))?;
    }
    Ok(State { values })
}

/// The states between commas.
fn states(alloc: Global, text: &str) -> Result<Vec<State>, AllocError> {
    let mut states = Vec::new(alloc);
    for part in text.split(", ") {
        if !part.is_empty() {
            states.push(state(alloc, part)?)?;
        }
    }
    Ok(states)
}

/// What the states say of the property, where there is one.
fn path_text(
    alloc: Global,
    system: &System,
    states: &[State],
    property: u32,
) -> Result<String, AllocError>
    requires { IsReady (system_view system.now) }
{
    if states.len() < 100 && (property as usize) < system.properties.len() {
        let answer = check_path(system, states, property);
        format!(in alloc; "{answer:?}")
    } else {
        format!(in alloc; "not asked")
    }
}

/// `SYSTEM; PROPERTY; STATES`: what the states say of the property.
pub fn path(alloc: Global, given: &Given, case: &str) -> Result<String> {
    let parts = parts(case);
    let system = ready(given, parts[0])?;
    let states = states(alloc, parts[2])?;
    Ok(path_text(alloc, system, &states, number(parts[1]))?)
}

/// `SYSTEM`: whether it is mild.
pub fn mild(alloc: Global, given: &Given, case: &str) -> Result<String> {
    let mild = ready(given, case)?.copied(alloc)?.is_mild();
    Ok(format!(in alloc; "{mild}")?)
}

/// The shapes of the variables of a term by itself.
const SHAPES: [Shape; 2] = [Shape::Flag, Shape::Number];

/// The term and its truth at the state, where it fits.
fn value_text(alloc: Global, term: &Term, state: &State) -> Result<String, AllocError> {
    sys_terms::laws::fitting_terms_are_divided();
    let text = term_text(alloc, term)?;
    if term.fits(&SHAPES) {
        let value = eval(term, state, state);
        format!(in alloc; "{text}: {value:?}")
    } else {
        format!(in alloc; "{text}: does not fit")
    }
}

/// `STATE; TERM`: the truth of the term at the state, of a flag and a number.
pub fn value(alloc: Global, case: &str) -> Result<String, AllocError> {
    let (values, text) = cut(case);
    let term = term(alloc, text)?;
    let state = state(alloc, values)?;
    value_text(alloc, &term, &state)
}

/// Its parts, whether it fits, is of one state and light, has at most two levels, and equals its copy.
fn measures_text(alloc: Global, term: &Term) -> Result<String, AllocError> {
    let text = term_text(alloc, term)?;
    let parts = term.parts();
    let fits = term.fits(&SHAPES);
    let present = term.is_present();
    let light = term.is_light();
    let shallow = term.is_within_levels(2);
    let same = same_term(term, &term.copied(alloc)?);
    format!(in alloc;
        "{text}: {parts} parts, fits {fits}, present {present}, light {light}, shallow {shallow}, same {same}"
    )
}

/// `TERM`: its measures.
pub fn measures(alloc: Global, case: &str) -> Result<String, AllocError> {
    let term = term(alloc, case)?;
    measures_text(alloc, &term)
}
