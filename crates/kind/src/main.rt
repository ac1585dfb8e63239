//! The program `kind`: real files and standard output behind `kind_top`.
#![tactic(auto)]

use kind_io::{FileShelf, StdSink};
use kind_main::kind_top;
use std::alloc::{AllocError, Global};
use std::env::Args;
use std::io::ErrorKind;
use std::process::ExitCode;

/// The words behind the program's name.
fn words_behind(alloc: Global, args: Args) -> Result<Vec<String>, AllocError> {
    let mut words = Vec::new(alloc);
    for word in args.skip(1) {
        words.push(word)?;
    }
    Ok(words)
}

/// A word that is not UTF-8 makes the command line faulty: the one word `--` stands for it, which
/// no command takes.
fn faulty_words(alloc: Global) -> Result<Vec<String>, AllocError> {
    let mut words = Vec::new(alloc);
    words.push(String::from_str(alloc, "--")?)?;
    Ok(words)
}

fn main(rt: HostRuntime) -> ExitCode {
    let alloc = rt.alloc();
    let read = match std::env::args(&rt) {
        Ok(args) => words_behind(alloc, args),
        Err(error) if error.kind() == ErrorKind::InvalidData => faulty_words(alloc),
        Err(_) => Err(AllocError),
    };
    let Ok(words) = read else {
        return ExitCode::from(7);
    };
    let mut shelf = FileShelf::new(&rt);
    let mut out = StdSink::new(&rt);
    let status = kind_top(alloc, &words, &mut shelf, &mut out);
    ExitCode::from(status.code)
}
