//! What a line of a file of cases says.

use crate::escape::unescaped;
use crate::run::{Case, run};
use std::alloc::{AllocError, Global};

/// A file of cases without its `.cases`, and what its lines say.
pub type Table = (&'static str, Ask);

/// What a line says.
#[derive(Clone, Copy)]
pub enum Ask {
    /// `SOURCE | TRACE`: a replay of the trace on the source.
    Replay,
    /// `SOURCE`: its proof.
    Prove,
    /// Words. The first fetch would fail.
    Words,
    /// `FETCHES | PUTS | WORDS | SOURCE | TRACE`: the fetches and the puts with these numbers fail.
    /// A source or trace `-` is a file that is missing.
    Calls,
}

/// The names of the files of a case.
const NAMES: [&str; 2] = ["f", "t"];

/// What the run of a case leaves.
pub fn answer(alloc: Global, ask: Ask, line: &str) -> Result<String, AllocError> {
    let mut case = Case::new(alloc);
    match ask {
        Ask::Replay => {
            add_words(alloc, "replay f t", &mut case)?;
            add_files(alloc, line, &mut case)?;
        }
        Ask::Prove => {
            add_words(alloc, "prove f", &mut case)?;
            add_files(alloc, line, &mut case)?;
        }
        Ask::Words => {
            add_words(alloc, line, &mut case)?;
            case.fetches.push(0)?;
        }
        Ask::Calls => add_calls(alloc, line, &mut case)?,
    }
    run(alloc, case)
}

/// The part before the next ` | `, and what stands behind it.
fn part(line: &str) -> (&str, &str) {
    line.split_once(" | ").unwrap_or((line, ""))
}

fn add_calls(alloc: Global, line: &str, case: &mut Case) -> Result<(), AllocError> {
    let (fetches, line) = part(line);
    let (puts, line) = part(line);
    let (words, files) = part(line);
    add_numbers(fetches, &mut case.fetches)?;
    add_numbers(puts, &mut case.puts)?;
    add_words(alloc, words, case)?;
    add_files(alloc, files, case)
}

/// Numbers between blanks; what is none is passed over.
fn add_numbers(text: &str, numbers: &mut Vec<u64>) -> Result<(), AllocError> {
    for word in text.split(' ') {
        if let Ok(number) = word.parse() {
            numbers.push(number)?;
        }
    }
    Ok(())
}

/// Words between blanks; `''` is an empty one.
fn add_words(alloc: Global, text: &str, case: &mut Case) -> Result<(), AllocError> {
    for word in text.split(' ') {
        if !word.is_empty() {
            let word = if word == "''" { "" } else { word };
            case.words.push(String::from_str(alloc, word)?)?;
        }
    }
    Ok(())
}

fn add_files(alloc: Global, line: &str, case: &mut Case) -> Result<(), AllocError> {
    let (source, trace) = part(line);
    for (name, text) in NAMES.into_iter().zip([source, trace]) {
        if text != "-" {
            let name = String::from_str(alloc, name)?;
            case.files.push((name, unescaped(alloc, text)?))?;
        }
    }
    Ok(())
}
