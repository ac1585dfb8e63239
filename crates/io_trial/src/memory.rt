//! Shelves and sinks in memory.

use crate::words::{done, fetched, found, quoted};
use anyhow::Result;
use kind_io::{MemoryShelf, MemorySink, NeverShelf, NeverSink, Shelf, Sink};
use std::alloc::{AllocError, Global};

fn two_files(alloc: Global) -> Result<Vec<(String, Vec<u8>)>, AllocError> {
    let mut files = Vec::new(alloc);
    files.push((String::from_str(alloc, "f")?, b"one".to_vec(alloc)?))?;
    files.push((String::from_str(alloc, "empty")?, Vec::new(alloc)))?;
    Ok(files)
}

/// What is fetched and kept.
pub fn shelves(alloc: Global, out: &mut String) -> Result<()> {
    limits(alloc, out)?;
    failing(alloc, out, &[7, 8])?;
    failing(alloc, out, &[0])?;
    failing(alloc, out, &[1])?;
    failing(alloc, out, &[2])?;
    kept(alloc, out)?;
    never(alloc, out)
}

/// Fetches give the bytes up to the limit.
fn limits(alloc: Global, out: &mut String) -> Result<()> {
    let mut shelf = MemoryShelf::new(two_files(alloc)?, Vec::new(alloc));
    for (name, limit) in [("f", 3), ("f", u64::MAX), ("f", 2), ("empty", 0), ("", 9)] {
        let answer = fetched(alloc, shelf.fetch(alloc, name, limit))?;
        writeln!(out, "fetch {name:?} up to {limit}: {answer}")?;
    }
    Ok(())
}

/// The calls with these numbers fail and change nothing.
fn failing(alloc: Global, out: &mut String, numbers: &[u64]) -> Result<()> {
    let mut shelf = MemoryShelf::new(two_files(alloc)?, numbers.to_vec(alloc)?);
    let kept = done(alloc, shelf.keep(alloc, "new", b"two"))?;
    let read = fetched(alloc, shelf.fetch(alloc, "new", 3))?;
    let left = found(alloc, shelf.get("new"))?;
    writeln!(
        out,
        "where {numbers:?} fail: keep {kept}; fetch {read}; holds {left}"
    )?;
    Ok(())
}

/// A name that is kept replaces its bytes alone.
fn kept(alloc: Global, out: &mut String) -> Result<()> {
    let mut shelf = MemoryShelf::new(two_files(alloc)?, Vec::new(alloc));
    shelf.keep(alloc, "empty", b"two")?;
    shelf.keep(alloc, "new", b"three")?;
    for name in ["f", "empty", "new", "other"] {
        let bytes = found(alloc, shelf.get(name))?;
        writeln!(out, "{name} holds {bytes}")?;
    }
    Ok(())
}

/// On a shelf that never fails no name is missing.
fn never(alloc: Global, out: &mut String) -> Result<()> {
    let mut shelf = NeverShelf::new(two_files(alloc)?);
    shelf.keep(alloc, "new", b"two")?;
    for name in ["f", "new", "other"] {
        let answer = fetched(alloc, shelf.fetch(alloc, name, 3))?;
        writeln!(out, "fetch {name} that never fails: {answer}")?;
    }
    let put = done(alloc, NeverSink::new(alloc).put(b"any"))?;
    writeln!(out, "put that never fails: {put}")?;
    Ok(())
}

/// What is put.
pub fn sinks(alloc: Global, out: &mut String) -> Result<()> {
    pieces(alloc, out, &[])?;
    pieces(alloc, out, &[1])?;
    pieces(alloc, out, &[0, 2])
}

/// The puts with these numbers fail and write nothing.
fn pieces(alloc: Global, out: &mut String, numbers: &[u64]) -> Result<()> {
    let mut sink = MemorySink::new(alloc, numbers.to_vec(alloc)?);
    sink.reserve(3)?;
    write!(out, "where {numbers:?} fail:")?;
    for piece in [b"a", b"b", b"c"] {
        let answer = done(alloc, sink.put(piece))?;
        write!(out, " {answer};")?;
    }
    let written = quoted(alloc, sink.bytes())?;
    writeln!(out, " written {written}")?;
    Ok(())
}
