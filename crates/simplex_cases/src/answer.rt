ghost use Rattle.std.specs.Prelude.{◌≡◌, true};

use anyhow::Result;
use int_cuts::{Cut, CutAnswer, cut_of, split_of};
use int_simplex::Tableau;
use proof_steps::{PastStep, Source};
use std::alloc::Global;

/// The word with the numbers behind it.
pub fn told(alloc: Global, word: &str, numbers: &[i128]) -> Result<String> {
    let mut text = String::new(alloc);
    text.push_str(word)?;
    for number in numbers {
        let item = format!(in alloc; " {number}")?;
        text.push_str(item.as_str())?;
    }
    Ok(text)
}

/// Multipliers with literals.
pub fn parts(alloc: Global, parts: &[(i128, u32)]) -> Result<Vec<i128>> {
    let mut numbers = Vec::new(alloc);
    for part in parts {
        let (multiplier, literal) = *part;
        numbers.push(multiplier)?;
        numbers.push(literal as i128)?;
    }
    Ok(numbers)
}

/// The columns' values, each with its divisor.
pub fn values(alloc: Global, tableau: &Tableau) -> Result<Vec<i128>>
    requires { tableau.now.usable ≡ true }
{
    let mut numbers = Vec::new(alloc);
    for c in 0..tableau.columns() {
        let (top, bottom) = tableau.value(c);
        numbers.push(top)?;
        numbers.push(bottom)?;
    }
    Ok(numbers)
}

/// The operands, and how many rows show them.
pub fn past(alloc: Global, step: &PastStep) -> Result<Vec<i128>> {
    Ok(vec![in alloc; step.past.left, step.past.right, step.rows.len() as i128]?)
}

/// The columns of a row with their entries.
pub fn terms(alloc: Global, row: &[(u32, i128)]) -> Result<Vec<i128>> {
    let mut numbers = Vec::new(alloc);
    for t in row {
        let (column, a) = *t;
        numbers.push(column as i128)?;
        numbers.push(a)?;
    }
    Ok(numbers)
}

fn cut(alloc: Global, cut: &Cut) -> Result<Vec<i128>> {
    let mut numbers = terms(alloc, cut.atom.terms.as_slice())?;
    numbers.push(cut.atom.bound)?;
    numbers.push(cut.line.divisor)?;
    for part in &cut.line.parts {
        let (multiplier, source) = *part;
        numbers.push(multiplier)?;
        numbers.push(match source {
            Source::Literal(n) => n as i128,
            Source::Line(n) => n as i128,
        })?;
    }
    Ok(numbers)
}

/// The answer of `cut_of`.
pub fn cutting(alloc: Global, tableau: &Tableau) -> Result<String>
    requires { tableau.now.usable ≡ true }
{
    match cut_of(alloc, tableau)? {
        CutAnswer::Cut(found) => told(alloc, "cut", &cut(alloc, &found)?),
        CutAnswer::Whole => told(alloc, "whole", &[]),
        CutAnswer::Loose(column) => told(alloc, "loose", &[column as i128]),
        CutAnswer::Past(past) => told(alloc, "past", &[past.left, past.right]),
    }
}

/// The answer of `split_of`.
pub fn splitting(alloc: Global, tableau: &Tableau) -> Result<String>
    requires { tableau.now.usable ≡ true }
{
    match split_of(tableau) {
        Some((column, floor)) => told(alloc, "split", &[column as i128, floor]),
        None => told(alloc, "whole", &[]),
    }
}

/// How many entries the rows have, and how many of them are 0.
pub fn entries(alloc: Global, tableau: &Tableau) -> Result<String>
    requires { tableau.now.usable ≡ true }
{
    let mut count: u64 = 0;
    let mut zeros: u64 = 0;
    for c in 0..tableau.columns() {
        if let Some(row) = tableau.row(c) {
            for t in row {
                count = count.saturating_add(1);
                if t.1 == 0 {
                    zeros = zeros.saturating_add(1);
                }
            }
        }
    }
    told(alloc, "entries", &[count as i128, zeros as i128])
}
