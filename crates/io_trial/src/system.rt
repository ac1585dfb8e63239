//! The system's files and standard output.

use crate::words::{done, fetched};
use anyhow::Result;
use kind_io::{FileShelf, Shelf, Sink, StdSink};
use std::{env, fs, process};

/// A file is kept, fetched and missing; an endless one is too long; standard input keeps nothing.
pub fn files(rt: HostRuntime) -> Result<()> {
    let alloc = rt.alloc();
    let name = format!(in alloc; "io_trial-{}", process::id(rt.process()))?;
    let path = env::temp_dir(&rt)?.join(alloc, name.as_str())?;
    let mut shelf = FileShelf::new(&rt);
    let first = done(alloc, shelf.keep(alloc, path.as_str(), b"a longer text"))?;
    let second = done(alloc, shelf.keep(alloc, path.as_str(), b"two\nlines"))?;
    let whole = fetched(alloc, shelf.fetch(alloc, path.as_str(), 9))?;
    let cut = fetched(alloc, shelf.fetch(alloc, path.as_str(), 8))?;
    fs::remove_file(&rt, path.as_path())?;
    let missing = fetched(alloc, shelf.fetch(alloc, path.as_str(), 9))?;
    println!(rt;
        "a file: keep {first}; keep {second}; fetch {whole}; up to 8 {cut}; removed {missing}"
    )?;
    let input = done(alloc, shelf.keep(alloc, "", b"input"))?;
    println!(rt; "standard input: keep {input}")?;
    let endless = fetched(alloc, shelf.fetch(alloc, "/dev/zero", 100_000))?;
    println!(rt; "an endless file: {endless}")?;
    Ok(())
}

/// Standard output takes pieces.
pub fn output(rt: HostRuntime) -> Result<()> {
    let mut out = StdSink::new(&rt);
    for piece in [b"a piece\n".as_slice(), b"", b"and another\n"] {
        out.put(piece)?;
    }
    Ok(())
}
