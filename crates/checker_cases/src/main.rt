//! Works the numbers of `numbers.cases`, and checks each proof of the other files in data/ against the query that stands
//! before it: a line of such a file adds a part to the query or to the proof, and `check NAME` asks. Prints the answers.
//!
//! For the benchmark of the checker, the words `NUMBER lines|flags check|build` have it build the refutation of so many
//! implications, with `lines` also a theory step of so many lines, and with `check` check it.
#![tactic(auto)]

mod case;
mod chain;
mod numbers;
mod parts;
mod stops;

use case::Case;
use chain::chain;
use numbers::worked;
use parts::short;
use std::{env, fs, io};

/// What comes of a line of a file of proofs.
fn print_line(rt: &HostRuntime, case: &mut Case, line: &str) -> io::Result<()> {
    match line.strip_prefix("check ") {
        Some(name) => {
            let answer = case.answer(rt.alloc())?;
            println!(rt; "{name}: {answer}")
        }
        None => Ok(case.take(rt.alloc(), line)?),
    }
}

fn print_proofs(rt: &HostRuntime, file: &str) -> io::Result<()> {
    println!(rt; "== {file}")?;
    let text = fs::read_to_string(rt, file)?;
    let mut case = Case::new(rt.alloc());
    for line in text.lines() {
        print_line(rt, &mut case, line)?;
    }
    Ok(())
}

fn print_numbers(rt: &HostRuntime, file: &str) -> io::Result<()> {
    println!(rt; "== {file}")?;
    let text = fs::read_to_string(rt, file)?;
    for line in text.lines() {
        let result = worked(rt.alloc(), line)?;
        println!(rt; "{line}: {result}")?;
    }
    Ok(())
}

/// Prints how many steps of the chain's refutation were accepted.
fn print_chain(rt: &HostRuntime, number: &str, part: &str, work: &str) -> io::Result<()> {
    let refutation = chain(rt.alloc(), short(number), part == "lines")?;
    let steps = if work == "check" {
        refutation.accepted(rt.alloc())
    } else {
        0
    };
    println!(rt; "{steps} steps accepted")
}

fn print_tables(rt: &HostRuntime) -> io::Result<()> {
    print_numbers(rt, "numbers.cases")?;
    print_proofs(rt, "certificate.cases")?;
    print_proofs(rt, "rules.cases")?;
    let stops = stops::copies(rt.alloc())?;
    println!(rt; "{stops}")?;
    print_chain(rt, "1000", "lines", "check")
}

fn main(rt: HostRuntime) -> io::Result<()> {
    let words: Vec<String> = env::args(&rt)?.collect(rt.alloc())?;
    match words.as_slice() {
        [_, number, part, work] => print_chain(&rt, number.as_str(), part.as_str(), work.as_str()),
        _ => print_tables(&rt),
    }
}
