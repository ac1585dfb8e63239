//! Each shelf and sink under callers that are generic over both.

use crate::generic::{copy, copy_surely, put_both};
use crate::words::{done, found, quoted};
use anyhow::Result;
use kind_io::{MemoryShelf, MemorySink, NeverShelf, NeverSink, Shelf};
use std::alloc::Global;

/// What a copy of `a` to `b` comes to before and after `a` is kept, and what two pieces leave.
pub fn served(alloc: Global, out: &mut String) -> Result<()> {
    copies(alloc, out)?;
    let mut sink = MemorySink::new(alloc, Vec::new(alloc));
    let both = done(alloc, put_both(&mut sink, b"one", b" two"))?;
    let written = quoted(alloc, sink.bytes())?;
    writeln!(out, "two pieces: {both}, {written}")?;
    let never = done(alloc, put_both(&mut NeverSink::new(alloc), b"one", b" two"))?;
    writeln!(out, "two pieces that never fail: {never}")?;
    Ok(())
}

fn copies(alloc: Global, out: &mut String) -> Result<()> {
    let mut shelf = MemoryShelf::new(Vec::new(alloc), Vec::new(alloc));
    let before = copy(alloc, &mut shelf, "a", "b");
    shelf.keep(alloc, "a", b"one")?;
    let after = copy(alloc, &mut shelf, "a", "b");
    let copied = found(alloc, shelf.get("b"))?;
    writeln!(out, "copy a to b: {before:?}, {after:?}, {copied}")?;
    let mut never = NeverShelf::new(Vec::new(alloc));
    let surely = copy_surely(alloc, &mut never, "a", "b");
    writeln!(out, "copy that never fails: {surely}")?;
    Ok(())
}
