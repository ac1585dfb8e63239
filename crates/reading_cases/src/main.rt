//! Reads each case of the files in data/ and prints it with what the lexer, the readers of parts
//! and the reader of programs answer. Trees and refusals are printed from their copies. Then it counts the tokens and the
//! declarations of a source, and reads the deepest expressions in two threads.
//!
//! For the benchmarks, the words `tokens FILE` and `declarations FILE` have it count those of the file alone.
#![tactic(auto)]

mod answer;
mod counting;
mod cut;
mod deepest;
mod escape;
mod expression;
mod laws;
mod nodes;
mod parts;
mod program;
mod words;

use answer::{Ask, LIMIT, Table, answer};
use counting::{declarations_of, tokens_of};
use std::{env, fs, io};

/// A table of cases is a file, and what is asked of each of its lines.
const TABLES: [Table; 34] = [
    ("names_numbers_texts", Ask::Spans),
    ("signs", Ask::Spans),
    ("contracts_annotations", Ask::Spans),
    ("keywords", Ask::Spans),
    ("comments", Ask::Spans),
    ("lines_columns", Ask::Places),
    ("faults", Ask::Spans),
    ("faults", Ask::Fault),
    ("ends", Ask::End),
    ("identifiers", Ask::Identifier),
    ("expressions", Ask::Expression(false)),
    ("expression_places", Ask::Expression(true)),
    ("longest_expressions", Ask::Expression(false)),
    ("refused_expressions", Ask::Expression(false)),
    ("counted_expressions", Ask::Counted),
    ("deep_expressions", Ask::IsExpression),
    ("names", Ask::Names),
    ("left_sides", Ask::Left),
    ("parameters", Ask::Parameters),
    ("groups", Ask::Groups),
    ("local_groups", Ask::LocalGroup),
    ("labels", Ask::Label),
    ("constants", Ask::Constant),
    ("bodies", Ask::Body),
    ("refused_bodies", Ask::Body),
    ("programs", Ask::Program(false)),
    ("program_places", Ask::Program(true)),
    ("refused_declarations", Ask::Program(false)),
    ("refused_locals_and_bodies", Ask::Program(false)),
    ("refused_contracts", Ask::Program(false)),
    ("refused_contract_nodes", Ask::Program(false)),
    ("deep_programs", Ask::IsProgram),
    ("nodes", Ask::Nodes),
    ("fronts", Ask::Fronts),
];

fn print_table(rt: &HostRuntime, name: &str, ask: Ask) -> io::Result<()> {
    println!(rt; "== {name}: {ask:?}")?;
    let file = format!(in rt.alloc(); "{name}.cases")?;
    let cases = fs::read_to_string(rt, file.as_str())?;
    for case in cases.lines() {
        let text = answer(rt.alloc(), ask, case)?;
        let text = if text.is_empty() {
            "nothing"
        } else {
            text.as_str()
        };
        println!(rt; "{case}\n    {text}")?;
    }
    Ok(())
}

/// Prints how many tokens the file has, or how many declarations.
fn print_count(rt: &HostRuntime, what: &str, file: &str) -> io::Result<()> {
    let bytes = fs::read(rt, file)?;
    if bytes.len() > LIMIT {
        return println!(rt; "too long");
    }
    let count = if what == "tokens" {
        tokens_of(rt.alloc(), &bytes)?
    } else {
        declarations_of(rt.alloc(), &bytes)?
    };
    println!(rt; "{count}")
}

fn main(rt: HostRuntime) -> io::Result<()> {
    let words: Vec<String> = env::args(&rt)?.collect(rt.alloc())?;
    if let [_, what, file] = words.as_slice() {
        return print_count(&rt, what.as_str(), file.as_str());
    }
    laws::all();
    for (name, ask) in TABLES {
        print_table(&rt, name, ask)?;
    }
    print_count(&rt, "tokens", "toggle.lus")?;
    print_count(&rt, "declarations", "toggle.lus")?;
    for line in deepest::lines(&rt, rt.alloc())? {
        println!(rt; "{line}")?;
    }
    Ok(())
}
