// A sink in memory whose puts fail by their number.
ghost use Rattle.std.specs.Prelude.{◌≡◌, ◌+◌, ◌≤◌, ◌<◌, ◌↔◌, [], Some, OnOk, OnErr, IsErrOf, length};
ghost use Rattle.std.specs.Io.KnownBytes.{Appends};
ghost use Rattle.kind_io.specs.Counts.{Rose, StandsUnless, one_more};
ghost use Rattle.kind_io.specs.MemorySink.{bytes_of, room_of, faults_of, calls_of, failing_of, IsDue};
ghost use Rattle.kind_io.specs.Written.{AppendsFront};

use crate::schedule::Schedule;
use crate::{PutFault, Sink};
use std::alloc::Global;

/// A sink that keeps what is written.
#[derive(Drop)]
pub struct MemorySink {
    held: Vec<u8>,
    schedule: Schedule,
}

impl MemorySink {
    /// Nothing is written yet. The puts with the numbers in `failing`, counted from 0, fail and
    /// write nothing.
    pub fn new(alloc: Global, failing: Vec<u64>) -> Self
        ensures written { bytes_of result ≡ [] }
        ensures faults { faults_of result ≡ 0 }
        ensures calls { calls_of result ≡ 0 }
        ensures failing { failing_of result ≡ failing.items }
    {
        MemorySink {
            held: Vec::new(alloc),
            schedule: Schedule::new(failing),
        }
    }

    /// Makes room for `n` more bytes, for which puts then need no memory. Its only fault is `Memory`.
    pub fn reserve(&mut self, n: u64) -> Result<(), PutFault>
        ensures room { OnOk result (n ≤ room_of self.new) }
        ensures needed { OnErr result (room_of self.old < n) }
        ensures memory_alone { IsErrOf result PutFault.Failed → ⊥ }
        ensures keeps_room { room_of self.old ≤ room_of self.new }
        ensures written { bytes_of self.new ≡ bytes_of self.old }
        ensures faults { faults_of self.new ≡ faults_of self.old }
        ensures calls { calls_of self.new ≡ calls_of self.old }
        ensures failing { failing_of self.new ≡ failing_of self.old }
    {
        self.held
            .try_reserve(n as usize)
            .map_err(|_| PutFault::Memory)
    }

    /// All bytes that were written.
    pub fn bytes(&self) -> &[u8]
        ensures { result.now ≡ bytes_of self.now }
    {
        &self.held
    }
}

impl Sink for MemorySink {
    ghost written = { λ sink. Some (bytes_of sink) };

    ghost faults = { faults_of };

    fn put(&mut self, bytes: &[u8]) -> Result<(), PutFault>
        ensures all { OnOk result (Appends (Some (bytes_of self.old)) (Some (bytes_of self.new)) bytes.now) }
        ensures front { IsErrOf result PutFault.Failed
            → AppendsFront (Some (bytes_of self.old)) (Some (bytes_of self.new)) bytes.now }
        ensures memory { IsErrOf result PutFault.Memory → Some (bytes_of self.new) ≡ Some (bytes_of self.old) }
        ensures later { faults_of self.old ≤ faults_of self.new }
        ensures cause { IsErrOf result PutFault.Failed → Rose (faults_of self.old) (faults_of self.new) }

        ensures fails { IsErrOf result PutFault.Failed ↔ IsDue self.old }
        ensures unchanged { OnErr result (bytes_of self.new ≡ bytes_of self.old) }
        ensures covered { length bytes.now ≤ room_of self.old → IsErrOf result PutFault.Memory → ⊥ }
        ensures room { room_of self.old ≤ room_of self.new + length bytes.now }
        ensures room_stays { OnErr result (room_of self.old ≤ room_of self.new) }
        ensures stands { StandsUnless (IsErrOf result PutFault.Failed) (faults_of self.old) (faults_of self.new) }
        ensures calls { calls_of self.new ≡ one_more (calls_of self.old) }
        ensures failing { failing_of self.new ≡ failing_of self.old }
    {
        if self.schedule.fails_next() {
            self.schedule.count_fault();
            return Err(PutFault::Failed);
        }
        self.held
            .extend_from_slice(bytes)
            .map_err(|_| PutFault::Memory)
    }
}
