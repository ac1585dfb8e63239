//! Runs the program on each case of the files in data/, over files and output in memory, and prints
//! the case with what the run wrote and its status.
#![tactic(auto)]

mod case;
mod escape;
mod run;

use case::{Ask, Table, answer};
use std::alloc::Global;
use std::{fs, io};

/// A table of cases is a file, and what each of its lines says.
const TABLES: [Table; 22] = [
    ("first_replays", Ask::Replay),
    ("order_of_properties", Ask::Replay),
    ("order_of_equations", Ask::Replay),
    ("what_is_not_listed", Ask::Replay),
    ("operators", Ask::Replay),
    ("blanks_of_a_trace", Ask::Replay),
    ("longest_trace", Ask::Replay),
    ("comments", Ask::Replay),
    ("small_programs", Ask::Replay),
    ("broken_rules", Ask::Replay),
    ("no_tree", Ask::Replay),
    ("limits", Ask::Replay),
    ("misfits", Ask::Replay),
    ("proofs", Ask::Prove),
    ("proofs_of_operators", Ask::Prove),
    ("proofs_of_programs", Ask::Prove),
    ("traces_of_proofs", Ask::Replay),
    ("replays_of_programs", Ask::Replay),
    ("other_words", Ask::Words),
    ("failing_calls", Ask::Calls),
    ("failing_proofs", Ask::Calls),
    ("options", Ask::Calls),
];

fn main(rt: HostRuntime) -> io::Result<()> {
    for (name, ask) in TABLES {
        println!(rt; "== {name}")?;
        let file = format!(in rt.alloc(); "{name}.cases")?;
        let cases = fs::read_to_string(&rt, file.as_str())?;
        for case in cases.lines() {
            let text = answer(rt.alloc(), ask, case)?;
            println!(rt; "{case}\n{text}")?;
        }
    }
    Ok(())
}
