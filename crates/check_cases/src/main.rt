//! Reads and checks each source of the files in data/ and prints it with its refusal, or that it is taken: those of the
//! tables `types_` by the check of names, types and numbers, those of `clocks_` by that of clocks too, and the
//! others by all. Of the others it prints the number of the main node and the orders of the equations of the
//! declarations, or what is known of the main node. Sources that are made of numbers, or that stand in a file each,
//! near the limits, are printed with whether they are taken; of one source the names of all properties are. In the
//! tables a `^` stands for a line's end.
//!
//! For the benchmarks, the words `read FILE`, `types FILE`, `clocks FILE` and `checked FILE` have it read that source,
//! or read and check it so far.
#![tactic(auto)]

mod answer;
mod labels;
mod made;
mod node;
mod orders;

use answer::{Asked, told};
use labels::labels_or_refusal;
use made::source_of;
use std::{env, fs, io};

/// The tables of the check of names, types and numbers: each line of a file is a source.
const TYPES: [&str; 12] = [
    "types_names",
    "types_unknown",
    "types_sorts",
    "types_counts",
    "types_numbers",
    "types_circles",
    "types_state",
    "types_reading",
    "types_modes",
    "types_nodes",
    "types_several",
    "types_taken",
];

/// The tables of the check of clocks.
const CLOCKS: [&str; 10] = [
    "clocks_operators",
    "clocks_when",
    "clocks_merge",
    "clocks_calls",
    "clocks_condacts",
    "clocks_items",
    "clocks_contracts",
    "clocks_nested",
    "clocks_several",
    "clocks_taken",
];

/// The tables of which the orders are asked.
const ORDERS: [&str; 3] = ["lefts", "circles", "orders"];

/// The sources that stand in a file each.
const FILES: [&str; 20] = [
    "declarations_500",
    "declarations_501",
    "declarations_mixed",
    "names_2000",
    "names_2001",
    "names_of_a_contract",
    "calls_11",
    "calls_12",
    "calls_30",
    "modes_10",
    "modes_30",
    "levels_3600",
    "levels_4950",
    "levels_4000",
    "levels_4001",
    "parts_1000000",
    "parts_1000001",
    "owed_500",
    "owed_501",
    "names_before_variables",
];

/// What is said of a source of a table.
fn print_case(rt: &HostRuntime, asked: Asked, case: &str) -> io::Result<()> {
    let source = case.replace(rt.alloc(), "^", "\n")?;
    let text = told(rt.alloc(), asked, source.as_str(), None)?;
    println!(rt; "{case}\n    {text}")
}

/// What is said of the sources of a table.
fn print_table(rt: &HostRuntime, name: &str, asked: Asked) -> io::Result<()> {
    println!(rt; "== {name}")?;
    let file = format!(in rt.alloc(); "{name}.cases")?;
    let cases = fs::read_to_string(rt, file.as_str())?;
    for case in cases.lines() {
        print_case(rt, asked, case)?;
    }
    Ok(())
}

fn print_tables(rt: &HostRuntime, names: &[&str], asked: Asked) -> io::Result<()> {
    for name in names {
        print_table(rt, name, asked)?;
    }
    Ok(())
}

/// What is said of a source with a main node: before the source stands its name, or `-` for none.
fn print_main(rt: &HostRuntime, case: &str) -> io::Result<()> {
    let (name, source) = case.split_once(' ').unwrap_or((case, ""));
    let main = if name == "-" { None } else { Some(name) };
    let text = told(rt.alloc(), Asked::Orders, source, main)?;
    println!(rt; "{case}\n    {text}")
}

fn print_mains(rt: &HostRuntime) -> io::Result<()> {
    println!(rt; "== mains")?;
    let mains = fs::read_to_string(rt, "mains.cases")?;
    for case in mains.lines() {
        print_main(rt, case)?;
    }
    Ok(())
}

/// What is said of a source that stands in a file.
fn print_source(rt: &HostRuntime, file: &str, asked: Asked) -> io::Result<()> {
    let source = fs::read_to_string(rt, file)?;
    let text = told(rt.alloc(), asked, source.as_str(), None)?;
    println!(rt; "{text}")
}

fn print_files(rt: &HostRuntime) -> io::Result<()> {
    println!(rt; "== files")?;
    for name in FILES {
        print!(rt; "{name}: ")?;
        let file = format!(in rt.alloc(); "{name}.lus")?;
        print_source(rt, file.as_str(), Asked::Checked)?;
    }
    Ok(())
}

/// What is said of a source that is made of numbers.
fn print_made(rt: &HostRuntime, case: &str) -> io::Result<()> {
    let source = source_of(rt.alloc(), case)?;
    let text = told(rt.alloc(), Asked::Checked, source.as_str(), None)?;
    println!(rt; "{case}: {text}")
}

fn print_limits(rt: &HostRuntime) -> io::Result<()> {
    println!(rt; "== limits: outputs properties pres arrows")?;
    let cases = fs::read_to_string(rt, "limits.cases")?;
    for case in cases.lines() {
        print_made(rt, case)?;
    }
    Ok(())
}

fn print_labels(rt: &HostRuntime) -> io::Result<()> {
    println!(rt; "== labels")?;
    let source = fs::read_to_string(rt, "labels.lus")?;
    let text = labels_or_refusal(rt.alloc(), source.as_str())?;
    print!(rt; "{text}")
}

/// How far a source is checked at a word.
fn asked_by(word: &str) -> Asked {
    match word {
        "read" => Asked::Read,
        "types" => Asked::Types,
        "clocks" => Asked::Clocks,
        _ => Asked::Checked,
    }
}

fn main(rt: HostRuntime) -> io::Result<()> {
    let words: Vec<String> = env::args(&rt)?.collect(rt.alloc())?;
    if let [_, word, file] = words.as_slice() {
        return print_source(&rt, file.as_str(), asked_by(word.as_str()));
    }
    print_tables(&rt, &TYPES, Asked::Types)?;
    print_tables(&rt, &CLOCKS, Asked::Clocks)?;
    print_tables(&rt, &ORDERS, Asked::Orders)?;
    print_table(&rt, "nodes", Asked::Node)?;
    print_mains(&rt)?;
    print_files(&rt)?;
    print_limits(&rt)?;
    print_labels(&rt)
}
