//! A writer and a reader that fail.

use crate::words::fetched;
use anyhow::Result;
use kind_io::{read_within, write_whole};
use std::alloc::Global;
use std::io;
use std::io::{ErrorKind, Read, Write};

/// Takes one byte a call, is interrupted at each call of an even number, and takes nothing from the
/// call `last` on.
#[derive(Drop)]
struct Trickle {
    calls: u8,
    last: u8,
}

impl Trickle {
    fn turn(&mut self) -> io::Result<bool> {
        self.calls = self.calls.saturating_add(1);
        if self.calls % 2 == 0 {
            return Err(io::Error::from(ErrorKind::Interrupted));
        }
        Ok(self.calls < self.last)
    }
}

impl Write for Trickle {
    fn write(&mut self, buf: &[u8]) -> io::Result<usize> {
        Ok(if self.turn()? { buf.len().min(1) } else { 0 })
    }

    fn flush(&mut self) -> io::Result<()> {
        Ok(())
    }
}

/// A write that takes nothing fails, and an interrupted one is tried again.
pub fn writes(out: &mut String) -> Result<()> {
    for (last, piece) in [(9, "abc"), (4, "abc"), (0, "abc"), (0, "")] {
        let mut to = Trickle { calls: 0, last };
        let answer = match write_whole(&mut to, piece.as_bytes()) {
            Ok(()) => "done",
            Err(error) if error.kind() == ErrorKind::WriteZero => "takes nothing",
            Err(_) => "another error",
        };
        writeln!(
            out,
            "write {piece:?} where call {last} takes nothing: {answer}"
        )?;
    }
    Ok(())
}

/// Gives its bytes, and then fails.
#[derive(Drop)]
struct Broken<'a> {
    bytes: &'a [u8],
}

impl Read for Broken<'_> {
    fn read(&mut self, buf: &mut [u8]) -> io::Result<usize> {
        if self.bytes.is_empty() {
            return Err(io::Error::from(ErrorKind::InvalidData));
        }
        self.bytes.read(buf)
    }
}

/// A read that fails in mid-stream is no end.
pub fn reads(alloc: Global, out: &mut String) -> Result<()> {
    for limit in [9, 3, 2] {
        let answer = fetched(alloc, read_within(alloc, Broken { bytes: b"abc" }, limit))?;
        writeln!(
            out,
            "read of three bytes and a failure up to {limit}: {answer}"
        )?;
    }
    Ok(())
}
