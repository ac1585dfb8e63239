// Where the program writes.
ghost use Rattle.std.specs.Prelude.{◌≡◌, ◌≤◌, ℕ, List, Option, OnOk, IsErrOf};
ghost use Rattle.std.specs.Io.KnownBytes.{Appends};
ghost use Rattle.kind_io.specs.Counts.{Rose};
ghost use Rattle.kind_io.specs.Written.{AppendsFront};

use thiserror::Error;

/// Why `put` did not write all of its bytes.
#[derive(Clone, Copy, Debug, PartialEq, Eq, Error)]
pub enum PutFault {
    /// The write failed. Some front of the bytes was written, and the sink's count of faults rose.
    #[error("the write failed")]
    Failed,
    /// Memory ran out. Nothing was written.
    #[error("out of memory")]
    Memory,
}

/// Takes bytes, one piece after the other.
pub trait Sink {
    /// The bytes that were written, where the sink tells them.
    ghost written: { Self → Option (List ℕ) };

    /// How many calls have failed; the count stops at 2^64 - 1.
    ghost faults: { Self → ℕ };

    /// Writes all of these bytes.
    fn put(&mut self, bytes: &[u8]) -> Result<(), PutFault>
        ensures all { OnOk result (Appends (written self.old) (written self.new) bytes.now) }
        ensures front { IsErrOf result PutFault.Failed → AppendsFront (written self.old) (written self.new) bytes.now }
        ensures memory { IsErrOf result PutFault.Memory → written self.new ≡ written self.old }
        ensures later { faults self.old ≤ faults self.new }
        ensures cause { IsErrOf result PutFault.Failed → Rose (faults self.old) (faults self.new) };
}
