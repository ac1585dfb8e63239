// The system's files and its standard input.
ghost use Rattle.std.specs.Prelude.{◌≡◌, ◌<◌, ◌≤◌, ◌-◌, ◌^◌, None, IfOk, IfSome, IsErrOf, length, vec_len};
ghost use Rattle.kind_io.specs.System.{shelf_faults};

use crate::std_sink::write_whole;
use crate::{FetchFault, KeepFault, Shelf};
use std::alloc::Global;
use std::fs::File;
use std::io::{ErrorKind, Input, Read};
use std::rt::Files;

/// The most bytes that a file may have: 2^40.
const LONGEST: u64 = 1 << 40;

/// The files of the system by their paths; the empty name is standard input, which keeps nothing. It
/// tells no bytes. A file that cannot be read or written, or is longer than 2^40 bytes, is a fault.
#[derive(Drop)]
pub struct FileShelf<'r, R> {
    rt: &'r R,
    faults: u64,
}

impl<'r, R: Files + Input> FileShelf<'r, R> {
    /// No call has failed yet.
    pub fn new(rt: &'r R) -> Self
        ensures { shelf_faults result ≡ 0 }
    {
        FileShelf { rt, faults: 0 }
    }
}

impl<'r, R: Files + Input> Shelf for FileShelf<'r, R> {
    ghost told = { λ _ _. None };

    ghost faults = { shelf_faults };

    fn fetch(&mut self, alloc: Global, name: &str, limit: u64) -> Result<Vec<u8>, FetchFault> {
        let read = if name.is_empty() {
            read_within(alloc, self.rt.reader(), limit)
        } else {
            match File::open(self.rt, name) {
                Ok(file) => read_within(alloc, file, limit),
                Err(_) => Err(FetchFault::Failed),
            }
        };
        if let Err(FetchFault::Failed) = read {
            self.faults = self.faults.saturating_add(1);
        }
        read
    }

    fn keep(&mut self, _alloc: Global, name: &str, bytes: &[u8]) -> Result<(), KeepFault> {
        let written = File::create(self.rt, name).and_then(|mut file| write_whole(
            &mut file, bytes,
        ));
        if written.is_err() {
            self.faults = self.faults.saturating_add(1);
        }
        written.map_err(|_| KeepFault::Failed)
    }
}

/// All that is left to read, of which there are at most `limit` bytes and at most 2^40. More than
/// `limit` is `TooLong`, a read that fails or more than 2^40 is `Failed`; it stops reading where it
/// has seen that there is more. Only want of memory is `Memory`.
pub fn read_within<T: Read + Drop>(
    alloc: Global,
    from: T,
    limit: u64,
) -> Result<Vec<u8>, FetchFault>
    ensures bytes { IfOk result (λ read. IfSome (T.remaining from) (λ left. read.items ≡ left)) }
    ensures within { IfOk result (λ read. vec_len read ≤ limit) }
    ensures too_long { IsErrOf result FetchFault.TooLong → IfSome (T.remaining from) (λ left. limit < length left) }
    ensures longest { IfOk result (λ read. vec_len read ≤ 2 ^ 40) }
    ensures unlimited { IsErrOf result FetchFault.TooLong → limit < 2 ^ 64 - 1 }
{
    let most = limit.min(LONGEST);
    let mut read = Vec::new(alloc);
    if let Err(error) = from.take(most + 1).read_to_end(&mut read) {
        return Err(if error.kind() == ErrorKind::OutOfMemory {
            FetchFault::Memory
        } else {
            FetchFault::Failed
        });
    }
    let count = read.len() as u64;
    if count <= most {
        Ok(read)
    } else if count > limit {
        Err(FetchFault::TooLong)
    } else {
        Err(FetchFault::Failed)
    }
}
