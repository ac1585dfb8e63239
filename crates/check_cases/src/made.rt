//! Sources that are made of numbers.

use std::alloc::{AllocError, Global};

/// The numbers of a case: how many outputs and properties a node has, and how many `pre` and `->` stand in its
/// expressions.
#[derive(Clone, Copy)]
struct Counts {
    outputs: usize,
    properties: usize,
    pres: usize,
    arrows: usize,
}

/// The next number of a case, or 0.
fn number(word: Option<&str>) -> usize {
    word.and_then(|text| text.parse::<usize>().ok())
        .unwrap_or(0)
}

fn counts_of(case: &str) -> Counts {
    let mut words = case.split_whitespace();
    Counts {
        outputs: number(words.next()),
        properties: number(words.next()),
        pres: number(words.next()),
        arrows: number(words.next()),
    }
}

/// How many of so many occurrences, 40 to an expression, fall to the expression of this number.
fn share(occurrences: usize, number: usize) -> usize {
    occurrences
        .saturating_sub(number.saturating_mul(40))
        .min(40)
}

/// Adds a word so many times.
fn push_times(text: &mut String, word: &str, times: usize) -> Result<(), AllocError> {
    for _ in 0..times {
        text.push_str(word)?;
    }
    Ok(())
}

/// Adds the outputs.
fn push_outputs(alloc: Global, text: &mut String, outputs: usize) -> Result<(), AllocError> {
    for number in 0..outputs {
        let comma = if number > 0 { ", " } else { "" };
        let name = format!(in alloc; "{comma}x{number}")?;
        text.push_str(name.as_str())?;
    }
    Ok(())
}

/// Adds an equation for each output, with its share of the `pre`.
fn push_equations(alloc: Global, text: &mut String, counts: Counts) -> Result<(), AllocError> {
    for number in 0..counts.outputs {
        let left = format!(in alloc; "x{number} = ")?;
        text.push_str(left.as_str())?;
        push_times(text, "pre ", share(counts.pres, number))?;
        text.push_str("true; ")?;
    }
    Ok(())
}

/// Adds the properties, each with its share of the `->`.
fn push_properties(alloc: Global, text: &mut String, counts: Counts) -> Result<(), AllocError> {
    for number in 0..counts.properties {
        let before = format!(in alloc; "x{number} -> ")?;
        text.push_str("--%PROPERTY ")?;
        push_times(text, before.as_str(), share(counts.arrows, number))?;
        text.push_str("true; ")?;
    }
    Ok(())
}

/// The source of a case.
pub fn source_of(alloc: Global, case: &str) -> Result<String, AllocError> {
    let counts = counts_of(case);
    let mut text = String::from_str(alloc, "node main() returns (")?;
    push_outputs(alloc, &mut text, counts.outputs)?;
    text.push_str(" : bool); let ")?;
    push_equations(alloc, &mut text, counts)?;
    push_properties(alloc, &mut text, counts)?;
    text.push_str("tel")?;
    Ok(text)
}
