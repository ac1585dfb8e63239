//! Reads each case of the files in data/ and prints it with what is read of it, written, and
//! replayed. A line of a file of cases is a trace; a program that they are replayed on stands beside.
#![tactic(auto)]

mod escape;
mod laws;
mod program;
mod replays;
mod texts;

use escape::unescaped;
use lus_checked::Checked;
use program::source;
use replays::{fits, framed, shown};
use std::alloc::{AllocError, Global};
use std::{fs, io};
use texts::{places, read, rebuilt, written};

/// The limit on a source or a trace, in bytes.
const LIMIT: usize = 1_048_576;

/// A file of cases without its `.cases`, and what is asked of each trace.
const TEXTS: [(&str, Ask); 4] = [
    ("texts", Ask::Read),
    ("places", Ask::Places),
    ("written", Ask::Written),
    ("written", Ask::Rebuilt),
];

/// The same for traces that are replayed on the program of the name.
const REPLAYS: [(&str, Replayed); 10] = [
    ("fitting", Replayed::Fits),
    ("free_names", Replayed::Fits),
    ("two_instants", Replayed::Fits),
    ("small", Replayed::Shown),
    ("operators", Replayed::Shown),
    ("earlier", Replayed::Shown),
    ("order", Replayed::Shown),
    ("chain", Replayed::Shown),
    ("nothing", Replayed::Shown),
    ("frames", Replayed::Frames),
];

/// What is asked of the text of a trace.
#[derive(Clone, Copy, Debug)]
enum Ask {
    Read,
    Places,
    Written,
    Rebuilt,
}

/// What is asked of a trace of a program.
#[derive(Clone, Copy, Debug)]
enum Replayed {
    Fits,
    Shown,
    Frames,
}

fn text_answer(alloc: Global, ask: Ask, case: &str) -> Result<String, AllocError> {
    let bytes = unescaped(alloc, case)?;
    if bytes.len() > LIMIT {
        return String::from_str(alloc, "too long");
    }
    match ask {
        Ask::Read => read(alloc, &bytes),
        Ask::Places => places(alloc, &bytes),
        Ask::Written => written(alloc, &bytes),
        Ask::Rebuilt => rebuilt(alloc, &bytes),
    }
}

fn replay_answer(
    alloc: Global,
    checked: &Checked,
    ask: Replayed,
    case: &str,
) -> Result<String, AllocError> {
    let bytes = unescaped(alloc, case)?;
    if bytes.len() > LIMIT {
        return String::from_str(alloc, "too long");
    }
    match ask {
        Replayed::Fits => fits(alloc, checked, &bytes),
        Replayed::Shown => shown(alloc, checked, &bytes),
        Replayed::Frames => framed(alloc, checked, &bytes),
    }
}

fn main(rt: HostRuntime) -> io::Result<()> {
    laws::all();
    for (name, ask) in TEXTS {
        println!(rt; "== {name}: {ask:?}")?;
        let file = format!(in rt.alloc(); "{name}.cases")?;
        let cases = fs::read_to_string(&rt, file.as_str())?;
        for case in cases.lines() {
            let text = text_answer(rt.alloc(), ask, case)?;
            println!(rt; "{case}\n    {text}")?;
        }
    }
    for (name, ask) in REPLAYS {
        println!(rt; "== {name}: {ask:?}")?;
        let file = format!(in rt.alloc(); "{name}.lus")?;
        let bytes = fs::read(&rt, file.as_str())?;
        let Some(checked) = source(rt.alloc(), &bytes)? else {
            println!(rt; "refused")?;
            continue;
        };
        let file = format!(in rt.alloc(); "{name}.cases")?;
        let cases = fs::read_to_string(&rt, file.as_str())?;
        for case in cases.lines() {
            let text = replay_answer(rt.alloc(), &checked, ask, case)?;
            println!(rt; "{case}\n    {text}")?;
        }
    }
    Ok(())
}
