//! The files of a command.
ghost use Rattle.std.specs.Prelude.{◌≡◌, ◌≤◌, List, ℕ, length, MatchResult};
ghost use Rattle.kind_io.specs.Told.{MayHold};
ghost use Rattle.kind_main.specs.Ending.{IfStopped};
ghost use Rattle.kind_main.specs.Fetched.{limit, IsUnfetched};

use crate::ending::Stopped;
use kind_io::{FetchFault, Shelf};
use std::alloc::Global;

/// The most bytes of a source or of a trace.
const LIMIT: u64 = 1048576;

/// The bytes of a source or of a trace.
pub fn fetch<H: Shelf>(alloc: Global, name: &str, shelf: &mut H) -> Result<Vec<u8>, Stopped>
    ensures fetched { MatchResult result
        (λ bytes. MayHold (H.told shelf.old name.now) bytes.items × (length bytes.items ≤ limit))
        (IfStopped (IsUnfetched (H.told shelf.old name.now) (H.faults shelf.old) (H.faults shelf.new) name.now)) }
    ensures names { (other : List ℕ) → H.told shelf.new other ≡ H.told shelf.old other }
    ensures later { H.faults shelf.old ≤ H.faults shelf.new }
{
    match shelf.fetch(alloc, name, LIMIT) {
        Ok(bytes) => Ok(bytes),
        Err(FetchFault::TooLong) => Err(Stopped::Refused(String::from_str(
            alloc,
            "refused 1:1 TooLong\n",
        )?)),
        Err(FetchFault::Failed) => Err(Stopped::Unread(String::from_str(alloc, name)?)),
        Err(FetchFault::Memory) => Err(Stopped::Memory),
    }
}
