// Named bytes in memory.
ghost use Rattle.std.specs.Prelude.{◌≡◌, ◌≢◌, ◌<◌, ◌≤◌, ◌↔◌, ℕ, List, Some, None, OnOk, OnErr, IfOk, IsErrOf, length, vec_len, string_bytes, position};
ghost use Rattle.std.specs.Option.{option_map};
ghost use Rattle.std.specs.Str.{bytes_eq};
ghost use Rattle.kind_io.specs.Held.{held_of};

use crate::FetchFault;
use std::alloc::{AllocError, Global};

/// The bytes of the first file of that name.
pub fn find<'a>(files: &'a [(String, Vec<u8>)], name: &str) -> Option<&'a [u8]>
    ensures { option_map (λ bytes. bytes.now) result ≡ held_of files.now name.now }
{
    for file in files {
        if file.0.as_str() == name {
            return Some(&file.1);
        }
    }
    None
}

/// A copy of the bytes, if there are at most `limit`.
pub fn copied_within(alloc: Global, bytes: &[u8], limit: u64) -> Result<Vec<u8>, FetchFault>
    ensures same { IfOk result (λ copy. copy.items ≡ bytes.now) }
    ensures within { IfOk result (λ copy. vec_len copy ≤ limit) }
    ensures too_long { IsErrOf result FetchFault.TooLong ↔ (limit < length bytes.now) }
    ensures no_fault { IsErrOf result FetchFault.Failed → ⊥ }
{
    if bytes.len() as u64 > limit {
        return Err(FetchFault::TooLong);
    }
    bytes.to_vec(alloc).map_err(|_| FetchFault::Memory)
}

/// Makes these the bytes of that name.
pub fn store(
    alloc: Global,
    files: &mut Vec<(String, Vec<u8>)>,
    name: &str,
    bytes: &[u8],
) -> Result<(), AllocError>
    ensures kept { OnOk result (held_of files.new.items name.now ≡ Some bytes.now) }
    ensures others { (other : List ℕ) → other ≢ name.now
        → held_of files.new.items other ≡ held_of files.old.items other }
    ensures err { OnErr result (files.new.items ≡ files.old.items) }
{
    let copy = bytes.to_vec(alloc)?;
    match place_of(files, name) {
        Some(place) => files[place].1 = copy,
        None => files.push((String::from_str(alloc, name)?, copy))?,
    }
    Ok(())
}

/// The place of the first file of that name.
fn place_of(files: &[(String, Vec<u8>)], name: &str) -> Option<usize>
    ensures { result ≡ position (λ file. bytes_eq (string_bytes file.0) name.now) files.now }
{
    files.iter().position(|file| file.0.as_str() == name)
}
