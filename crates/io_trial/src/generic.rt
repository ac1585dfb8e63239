//! Callers over any shelf and any sink: the traits' clauses suffice for each of theirs.

ghost use Rattle.std.specs.Prelude.{◌≡◌, ◌≢◌, ◌≤◌, ◌++◌, ℕ, List, Some, None, OnOk, IsErrOf};
ghost use Rattle.kind_io.specs.Counts.{Rose};

use kind_io::{FetchFault, KeepFault, NeverShelf, PutFault, Shelf, Sink};
use std::alloc::Global;

/// How a copy ended.
#[derive(Clone, Copy, Debug, PartialEq, Eq)]
pub enum End {
    Copied,
    Unread,
    Unkept,
    Memory,
}

/// Copies a name's bytes to another name.
pub fn copy<H: Shelf>(alloc: Global, shelf: &mut H, from: &str, to: &str) -> End
    ensures copied { (bytes : List ℕ) (had : List ℕ) → H.told shelf.old from.now ≡ Some (Some bytes)
        → H.told shelf.old to.now ≡ Some (Some had)
        → result ≡ End.Copied → H.told shelf.new to.now ≡ Some (Some bytes) }
    ensures missing { H.told shelf.old from.now ≡ Some None → result ≢ End.Copied }
    ensures unread { result ≡ End.Unread → Rose (H.faults shelf.old) (H.faults shelf.new) }
    ensures unkept { result ≡ End.Unkept → Rose (H.faults shelf.old) (H.faults shelf.new) }
    ensures later { H.faults shelf.old ≤ H.faults shelf.new }
    ensures others { (other : List ℕ) → other ≢ to.now → H.told shelf.new other ≡ H.told shelf.old other }
{
    match shelf.fetch(alloc, from, u64::MAX) {
        Ok(bytes) => match shelf.keep(alloc, to, &bytes) {
            Ok(()) => End::Copied,
            Err(KeepFault::Failed) => End::Unkept,
            Err(KeepFault::Memory) => End::Memory,
        },
        Err(FetchFault::Failed) => End::Unread,
        Err(FetchFault::TooLong) => unreachable!(),
        Err(FetchFault::Memory) => End::Memory,
    }
}

/// Puts two pieces.
pub fn put_both<K: Sink>(out: &mut K, first: &[u8], second: &[u8]) -> Result<(), PutFault>
    ensures all { (had : List ℕ) → K.written out.old ≡ Some had
        → OnOk result (K.written out.new ≡ Some (had ++ first.now ++ second.now)) }
    ensures later { K.faults out.old ≤ K.faults out.new }
    ensures cause { IsErrOf result PutFault.Failed → Rose (K.faults out.old) (K.faults out.new) }
{
    match out.put(first) {
        Ok(()) => out.put(second),
        Err(PutFault::Failed) => Err(PutFault::Failed),
        Err(PutFault::Memory) => Err(PutFault::Memory),
    }
}

/// On a shelf that never fails only memory can be wanting.
pub fn copy_surely(alloc: Global, shelf: &mut NeverShelf, from: &str, to: &str) -> bool {
    match copy(alloc, shelf, from, to) {
        End::Copied => true,
        End::Memory => false,
        End::Unread | End::Unkept => unreachable!(),
    }
}
