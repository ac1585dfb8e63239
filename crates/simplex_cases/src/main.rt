//! Runs lines of calls on tableaus and prints what they answer; then random systems, each compared
//! with all its points.
//!
//! A line of the file is a call with its numbers: `new V` with the coefficients of rows over V variables, `wide V` (rows
//! of one variable each), `low C B L` and `up C B L`, `check N`, `ends N` (a check's answer in one word), `undo M`,
//! `bound C SIDE`, `row C`, `zeros`, `split`, `cut`. The column of the row at place j is V + j. For the benchmark,
//! `chain N` and `dense N SEED` make systems of N columns, with their bounds.

#![tactic(auto)]

mod answer;
mod calls;
mod random;
mod rows;
mod systems;

use anyhow::Result;
use calls::call;
use random::random_systems;
use std::fs;

fn main(rt: HostRuntime) -> Result<()> {
    let text = fs::read_to_string(&rt, "calls")?;
    let mut tableau = None;
    for line in text.lines() {
        let (next, answer) = call(rt.alloc(), tableau, line)?;
        tableau = next;
        println!(rt; "{line}: {answer}")?;
    }
    let right = random_systems(rt.alloc(), 300)?;
    println!(rt; "{right} of 300 random systems as their points")?;
    Ok(())
}
