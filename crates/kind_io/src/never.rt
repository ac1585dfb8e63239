// A shelf and a sink in memory that never fail but for want of memory.
ghost use Rattle.std.specs.Prelude.{◌≡◌, [], ℕ, List, Some, unwrap_or};
ghost use Rattle.kind_io.specs.Held.{held_of};
ghost use Rattle.kind_io.specs.Never.{held_by, written_by};

use crate::held::{copied_within, find, store};
use crate::{FetchFault, KeepFault, PutFault, Shelf, Sink};
use std::alloc::Global;

/// A shelf in memory on which no name is missing: one that it was not given has no bytes.
#[derive(Drop)]
pub struct NeverShelf {
    files: Vec<(String, Vec<u8>)>,
}

impl NeverShelf {
    /// Holds these files; of two with one name, the first.
    pub fn new(files: Vec<(String, Vec<u8>)>) -> Self
        ensures { (name : List ℕ) → held_by result name ≡ unwrap_or (held_of files.items name) [] }
    {
        NeverShelf { files }
    }
}

impl Shelf for NeverShelf {
    ghost told = { λ shelf name. Some (Some (held_by shelf name)) };

    ghost faults = { λ _. 0 };

    fn fetch(&mut self, alloc: Global, name: &str, limit: u64) -> Result<Vec<u8>, FetchFault> {
        copied_within(alloc, find(&self.files, name).unwrap_or(&[]), limit)
    }

    fn keep(&mut self, alloc: Global, name: &str, bytes: &[u8]) -> Result<(), KeepFault> {
        store(alloc, &mut self.files, name, bytes).map_err(|_| KeepFault::Memory)
    }
}

/// A sink that keeps what is written.
#[derive(Drop)]
pub struct NeverSink {
    held: Vec<u8>,
}

impl NeverSink {
    /// Nothing is written yet.
    pub fn new(alloc: Global) -> Self
        ensures { written_by result ≡ [] }
    {
        NeverSink {
            held: Vec::new(alloc),
        }
    }
}

impl Sink for NeverSink {
    ghost written = { λ sink. Some (written_by sink) };

    ghost faults = { λ _. 0 };

    fn put(&mut self, bytes: &[u8]) -> Result<(), PutFault> {
        self.held
            .extend_from_slice(bytes)
            .map_err(|_| PutFault::Memory)
    }
}
