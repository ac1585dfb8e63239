// Where the program fetches and keeps bytes under names.
ghost use Rattle.std.specs.Prelude.{◌≡◌, ◌≢◌, ◌-◌, ◌^◌, ◌<◌, ◌≤◌, ℕ, List, IfOk, OnOk, IsErrOf, vec_len};
ghost use Rattle.kind_io.specs.Counts.{Rose};
ghost use Rattle.kind_io.specs.Told.{Told, MayHold, MayExceed, NowHolds, StillTells};

use std::alloc::Global;
use thiserror::Error;

/// Why `fetch` gave no bytes. The shelf's names and bytes are as they were.
#[derive(Clone, Copy, Debug, PartialEq, Eq, Error)]
pub enum FetchFault {
    /// The name is missing or its bytes could not be read. The shelf's count of faults rose.
    #[error("the name could not be read")]
    Failed,
    /// The name holds more bytes than the limit.
    #[error("the name holds more bytes than the limit")]
    TooLong,
    /// Memory ran out.
    #[error("out of memory")]
    Memory,
}

/// Why `keep` did not keep the bytes. The other names are as they were.
#[derive(Clone, Copy, Debug, PartialEq, Eq, Error)]
pub enum KeepFault {
    /// The bytes could not be written. The name holds any bytes, and the shelf's count of faults rose.
    #[error("the name could not be written")]
    Failed,
    /// Memory ran out. The name is as it was.
    #[error("out of memory")]
    Memory,
}

/// Bytes under names.
pub trait Shelf {
    /// What is told of a name: nothing, that it is missing, or its bytes.
    ghost told: { Self → List ℕ → Told };

    /// How many calls have failed; the count stops at 2^64 - 1.
    ghost faults: { Self → ℕ };

    /// The bytes of that name, of which there are at most `limit`.
    fn fetch(&mut self, alloc: Global, name: &str, limit: u64) -> Result<Vec<u8>, FetchFault>
        ensures bytes { IfOk result (λ found. MayHold (told self.old name.now) found.items) }
        ensures within { IfOk result (λ found. vec_len found ≤ limit) }
        ensures too_long { IsErrOf result FetchFault.TooLong → MayExceed (told self.old name.now) limit }
        ensures unlimited { IsErrOf result FetchFault.TooLong → limit < 2 ^ 64 - 1 }
        ensures names { (other : List ℕ) → told self.new other ≡ told self.old other }
        ensures later { faults self.old ≤ faults self.new }
        ensures cause { IsErrOf result FetchFault.Failed → Rose (faults self.old) (faults self.new) };

    /// Makes these the bytes of that name.
    fn keep(&mut self, alloc: Global, name: &str, bytes: &[u8]) -> Result<(), KeepFault>
        ensures kept { OnOk result (NowHolds (told self.old name.now) (told self.new name.now) bytes.now) }
        ensures tells { StillTells (told self.old name.now) (told self.new name.now) }
        ensures memory { IsErrOf result KeepFault.Memory → told self.new name.now ≡ told self.old name.now }
        ensures others { (other : List ℕ) → other ≢ name.now → told self.new other ≡ told self.old other }
        ensures later { faults self.old ≤ faults self.new }
        ensures cause { IsErrOf result KeepFault.Failed → Rose (faults self.old) (faults self.new) };
}
