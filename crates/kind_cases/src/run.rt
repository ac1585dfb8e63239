//! A run of the program over files and output in memory.

use kind_io::{MemoryShelf, MemorySink};
use kind_main::kind_top;
use std::alloc::{AllocError, Global};

/// The words of a run, its files by name, and the numbers of the fetches and puts that fail.
#[derive(Drop)]
pub struct Case {
    pub words: Vec<String>,
    pub files: Vec<(String, Vec<u8>)>,
    pub fetches: Vec<u64>,
    pub puts: Vec<u64>,
}

impl Case {
    pub fn new(alloc: Global) -> Case {
        Case {
            words: Vec::new(alloc),
            files: Vec::new(alloc),
            fetches: Vec::new(alloc),
            puts: Vec::new(alloc),
        }
    }
}

/// What a run writes, each line behind four blanks, and its status.
pub fn run(alloc: Global, case: Case) -> Result<String, AllocError> {
    let mut shelf = MemoryShelf::new(case.files, case.fetches);
    let mut out = MemorySink::new(alloc, case.puts);
    let status = kind_top(alloc, &case.words, &mut shelf, &mut out);
    let mut text = String::new(alloc);
    for line in std::str::from_utf8(out.bytes())
        .unwrap_or("no text\n")
        .lines()
    {
        text.push_str("    ")?;
        text.push_str(line)?;
        text.push('\n')?;
    }
    text.push_str(&format!(in alloc; "    status {}", status.code)?)?;
    Ok(text)
}
