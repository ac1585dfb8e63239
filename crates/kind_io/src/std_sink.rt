// Standard output.
ghost use Rattle.std.specs.Prelude.{◌≡◌, None, OnOk};
ghost use Rattle.std.specs.Io.KnownBytes.{Appends};
ghost use Rattle.kind_io.specs.Written.{AppendsFront};
ghost use Rattle.kind_io.specs.System.{sink_faults};

use crate::{PutFault, Sink};
use std::io;
use std::io::{ErrorKind, Print, Write};

/// Standard output. It tells no bytes.
#[derive(Drop)]
pub struct StdSink<'r, R> {
    rt: &'r R,
    faults: u64,
}

impl<'r, R: Print> StdSink<'r, R> {
    /// No call has failed yet.
    pub fn new(rt: &'r R) -> Self
        ensures { sink_faults result ≡ 0 }
    {
        StdSink { rt, faults: 0 }
    }
}

impl<'r, R: Print> Sink for StdSink<'r, R> {
    ghost written = { λ _. None };

    ghost faults = { sink_faults };

    fn put(&mut self, bytes: &[u8]) -> Result<(), PutFault> {
        let written = write_whole(&mut io::writer(self.rt), bytes);
        if written.is_err() {
            self.faults = self.faults.saturating_add(1);
        }
        written.map_err(|_| PutFault::Failed)
    }
}

/// Writes all of the bytes, in as many writes as it takes; one that is interrupted is tried again. A
/// write that takes nothing is the error `WriteZero`. At an error some front of them was written.
pub fn write_whole<W: Write>(out: &mut W, bytes: &[u8]) -> io::Result<()>
    ensures all { OnOk result (Appends (W.contents out.old) (W.contents out.new) bytes.now) }
    ensures front { AppendsFront (W.contents out.old) (W.contents out.new) bytes.now }
{
    let mut rest = bytes;
    for _ in 0..u64::MAX {
        if rest.is_empty() {
            return Ok(());
        }
        match out.write(rest) {
            Ok(0) => return Err(io::Error::from(ErrorKind::WriteZero)),
            Ok(count) => rest = &rest[count..],
            Err(error) if error.kind() == ErrorKind::Interrupted => {}
            Err(error) => return Err(error),
        }
    }
    Err(io::Error::from(ErrorKind::TimedOut))
}
