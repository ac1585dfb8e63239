// A shelf in memory whose calls fail by their number.
ghost use Rattle.std.specs.Prelude.{◌≡◌, ◌≢◌, ◌-◌, ◌^◌, ◌<◌, ◌≤◌, ◌↔◌, ◌⊎◌, ℕ, List, Some, None, OnOk, IfOk, IsErrOf, vec_len};
ghost use Rattle.std.specs.Option.{option_map};
ghost use Rattle.kind_io.specs.Counts.{Rose, StandsUnless, one_more};
ghost use Rattle.kind_io.specs.Held.{held_of};
ghost use Rattle.kind_io.specs.MemoryShelf.{told_of, faults_of, calls_of, failing_of, IsDue};
ghost use Rattle.kind_io.specs.Told.{MayHold, MayExceed, NowHolds, StillTells};

use crate::held::{copied_within, find, store};
use crate::schedule::Schedule;
use crate::{FetchFault, KeepFault, Shelf};
use std::alloc::Global;

/// A shelf in memory, which tells all of its names.
#[derive(Drop)]
pub struct MemoryShelf {
    files: Vec<(String, Vec<u8>)>,
    schedule: Schedule,
}

impl MemoryShelf {
    /// Holds these files; of two with one name, the first. The calls with the numbers in `failing`,
    /// counted from 0 over `fetch` and `keep` together, fail and change no bytes.
    pub fn new(files: Vec<(String, Vec<u8>)>, failing: Vec<u64>) -> Self
        ensures told { (name : List ℕ) → told_of result name ≡ Some (held_of files.items name) }
        ensures faults { faults_of result ≡ 0 }
        ensures calls { calls_of result ≡ 0 }
        ensures failing { failing_of result ≡ failing.items }
    {
        MemoryShelf {
            files,
            schedule: Schedule::new(failing),
        }
    }

    /// The bytes of that name, or nothing where it is missing.
    pub fn get(&self, name: &str) -> Option<&[u8]>
        ensures { told_of self.now name.now ≡ Some (option_map (λ bytes. bytes.now) result) }
    {
        find(&self.files, name)
    }
}

impl Shelf for MemoryShelf {
    ghost told = { told_of };

    ghost faults = { faults_of };

    fn fetch(&mut self, alloc: Global, name: &str, limit: u64) -> Result<Vec<u8>, FetchFault>
        ensures bytes { IfOk result (λ found. MayHold (told_of self.old name.now) found.items) }
        ensures within { IfOk result (λ found. vec_len found ≤ limit) }
        ensures too_long { IsErrOf result FetchFault.TooLong → MayExceed (told_of self.old name.now) limit }
        ensures unlimited { IsErrOf result FetchFault.TooLong → limit < 2 ^ 64 - 1 }
        ensures names { (other : List ℕ) → told_of self.new other ≡ told_of self.old other }
        ensures later { faults_of self.old ≤ faults_of self.new }
        ensures cause { IsErrOf result FetchFault.Failed → Rose (faults_of self.old) (faults_of self.new) }

        ensures fails { IsErrOf result FetchFault.Failed ↔ (IsDue self.old ⊎ (told_of self.old name.now ≡ Some None)) }
        ensures stands { StandsUnless (IsErrOf result FetchFault.Failed) (faults_of self.old) (faults_of self.new) }
        ensures calls { calls_of self.new ≡ one_more (calls_of self.old) }
        ensures failing { failing_of self.new ≡ failing_of self.old }
    {
        let is_due = self.schedule.fails_next();
        match find(&self.files, name) {
            Some(bytes) if !is_due => copied_within(alloc, bytes, limit),
            _ => {
                self.schedule.count_fault();
                Err(FetchFault::Failed)
            }
        }
    }

    fn keep(&mut self, alloc: Global, name: &str, bytes: &[u8]) -> Result<(), KeepFault>
        ensures kept { OnOk result (NowHolds (told_of self.old name.now) (told_of self.new name.now) bytes.now) }
        ensures tells { StillTells (told_of self.old name.now) (told_of self.new name.now) }
        ensures memory { IsErrOf result KeepFault.Memory → told_of self.new name.now ≡ told_of self.old name.now }
        ensures others { (other : List ℕ) → other ≢ name.now → told_of self.new other ≡ told_of self.old other }
        ensures later { faults_of self.old ≤ faults_of self.new }
        ensures cause { IsErrOf result KeepFault.Failed → Rose (faults_of self.old) (faults_of self.new) }

        ensures fails { IsErrOf result KeepFault.Failed ↔ IsDue self.old }
        ensures unchanged { IsErrOf result KeepFault.Failed → told_of self.new name.now ≡ told_of self.old name.now }
        ensures stands { StandsUnless (IsErrOf result KeepFault.Failed) (faults_of self.old) (faults_of self.new) }
        ensures calls { calls_of self.new ≡ one_more (calls_of self.old) }
        ensures failing { failing_of self.new ≡ failing_of self.old }
    {
        if self.schedule.fails_next() {
            self.schedule.count_fault();
            return Err(KeepFault::Failed);
        }
        store(alloc, &mut self.files, name, bytes).map_err(|_| KeepFault::Memory)
    }
}
