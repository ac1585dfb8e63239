//! Runs the search over forms of flags and prints what it answers.
//!
//! The first word is how many random forms are tried, each compared with all assignments and with the
//! plain search. Then the looks of the first answer over a chain of implications are counted. The
//! others are files of clauses, a clause a line, of numbers other than 0: n is the flag n - 1, and -n
//! its opposite; on each the plain search answers too. Then clauses are added to searches that have
//! answered. The first file is searched once more at the end, as for the benchmark.
//!
//! For the benchmark of the search, the words `FILE search` have it search through the form of the file and print the answer
//! with the number of conflicts, and `FILE read` leaves the search out.

#![tactic(auto)]

mod adding;
mod brute;
mod chain;
mod clauses;
mod followed;
mod plain;
mod random;
mod trial;

use adding::{added_before_learning, additions_text};
use anyhow::{Result, bail};
use chain::chain_looks;
use clauses::read_form;
use cnf_maker::Cnf;
use plain::plainly;
use random::random_forms;
use std::{env, fs};
use trial::{Report, answered, tried};

fn tell(rt: &HostRuntime, name: &str, report: Report) -> Result<()> {
    let first = report.first;
    let shown = report.shown;
    if report.answer == "full" {
        println!(rt; "{name}: full, {shown}")?;
    } else {
        println!(rt; "{name}: {first} first, empty in the end, {shown}")?;
    }
    Ok(())
}

fn form_of(rt: &HostRuntime, name: &str) -> Result<Cnf> {
    let text = fs::read_to_string(rt, name)?;
    read_form(rt.alloc(), text.as_str())
}

/// The answer of the plain search, and how many clauses were false on its way.
fn tell_plain(rt: &HostRuntime, name: &str, form: &Cnf) -> Result<()> {
    let (met, conflicts) = plainly(rt.alloc(), form)?;
    let answer = if met { "full" } else { "empty" };
    println!(rt; "{name} by the plain search: {answer}, conflicts {conflicts}")?;
    Ok(())
}

/// Tries the form of a file.
fn try_file(rt: &HostRuntime, name: &str) -> Result<()> {
    let form = form_of(rt, name)?;
    tell(rt, name, tried(rt.alloc(), &form)?)?;
    tell_plain(rt, name, &form)
}

/// Searches through the form of a file.
fn search_file(rt: &HostRuntime, name: &str) -> Result<()> {
    let form = form_of(rt, name)?;
    let (answer, conflicts) = answered(rt.alloc(), &form)?;
    println!(rt; "{answer} {conflicts}")?;
    Ok(())
}

/// Reads the form of a file and leaves the search out.
fn only_read(rt: &HostRuntime, name: &str) -> Result<()> {
    let _form = form_of(rt, name)?;
    println!(rt; "read")?;
    Ok(())
}

/// Adds clauses after answers, and after a conflict on the form of a file.
fn tell_added(rt: &HostRuntime, name: &str) -> Result<()> {
    let text = additions_text(rt.alloc())?;
    println!(rt; "clauses added:{text}")?;
    let (first, last) = added_before_learning(rt.alloc(), &form_of(rt, name)?)?;
    println!(rt; "a clause added to {name} after {first}: {last} in the end")?;
    Ok(())
}

/// Tries so many random forms, and the files.
fn try_all(rt: &HostRuntime, number: &str, names: &[String]) -> Result<()> {
    let count: u32 = number.parse()?;
    let (right, alike) = random_forms(rt.alloc(), count)?;
    println!(rt; "{right} of {count} random forms answered right")?;
    println!(rt; "{alike} of {count} random forms answered alike by the plain search")?;
    let (first, looks) = chain_looks(rt.alloc())?;
    println!(rt; "chain of 9999 implications: {first} first, {looks} looks")?;
    for name in names {
        try_file(rt, name.as_str())?;
    }
    Ok(())
}

fn main(rt: HostRuntime) -> Result<()> {
    let words: Vec<String> = env::args(&rt)?.collect(rt.alloc())?;
    match words.as_slice() {
        [_, name, work] if work.as_str() == "search" => search_file(&rt, name.as_str()),
        [_, name, work] if work.as_str() == "read" => only_read(&rt, name.as_str()),
        [_, number, first, ..] => {
            try_all(&rt, number.as_str(), &words[2..])?;
            tell_added(&rt, first.as_str())?;
            search_file(&rt, first.as_str())
        }
        _ => bail!("usage: search_trial NUMBER FILE.. | FILE search | FILE read"),
    }
}
