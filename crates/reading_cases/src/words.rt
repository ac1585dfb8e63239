//! Places, names, declared streams and refusals, as text.

use lus_tree::{Param, PlacedName, Pos, Refusal, Sort};
use std::alloc::{AllocError, Global};

/// `LINE:COLUMN`.
pub fn show_place(out: &mut String, at: Pos) -> Result<(), AllocError> {
    let (line, column) = (at.line, at.column);
    write!(out, "{line}:{column}")
}

/// `@LINE:COLUMN`, if places are wanted.
pub fn show_mark(out: &mut String, at: Pos, places: bool) -> Result<(), AllocError> {
    if places {
        out.push_str("@")?;
        show_place(out, at)?;
    }
    Ok(())
}

/// The text of a copy of the refusal.
pub fn show_refusal(alloc: Global, refusal: &Refusal) -> Result<String, AllocError> {
    let copy = refusal.copied(alloc)?;
    format!(in alloc; "{copy}")
}

/// A name, with its place if places are wanted.
pub fn show_word(out: &mut String, word: &PlacedName, places: bool) -> Result<(), AllocError> {
    out.push_str(word.text.as_str())?;
    show_mark(out, word.at, places)
}

/// Names with commas between them.
pub fn show_words(out: &mut String, words: &[PlacedName], places: bool) -> Result<(), AllocError> {
    let mut first = true;
    for word in words {
        if !first {
            out.push_str(",")?;
        }
        first = false;
        show_word(out, word, places)?;
    }
    Ok(())
}

/// `:bool` or `:int`.
pub fn show_sort(out: &mut String, sort: Sort) -> Result<(), AllocError> {
    match sort {
        Sort::Bool => out.push_str(":bool"),
        Sort::Int => out.push_str(":int"),
    }
}

/// `NAME:TYPE`, and `/CLOCK` or `/!CLOCK`.
pub fn show_param(out: &mut String, param: &Param, places: bool) -> Result<(), AllocError> {
    show_word(out, &param.name, places)?;
    show_sort(out, param.sort)?;
    if let Some((on, clock)) = &param.clock {
        out.push_str(if *on { "/" } else { "/!" })?;
        show_word(out, clock, places)?;
    }
    Ok(())
}

/// Streams with blanks between them.
pub fn show_params(out: &mut String, params: &[Param], places: bool) -> Result<(), AllocError> {
    let mut first = true;
    for param in params {
        if !first {
            out.push_str(" ")?;
        }
        first = false;
        show_param(out, param, places)?;
    }
    Ok(())
}
