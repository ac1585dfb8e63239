//! What a call answered, in words.

use kind_io::FetchFault;
use std::alloc::{AllocError, Global};
use std::fmt::Display;

/// `done`, or the fault's text.
pub fn done<E: Display + Drop>(alloc: Global, answer: Result<(), E>) -> Result<String, AllocError> {
    match answer {
        Ok(()) => String::from_str(alloc, "done"),
        Err(fault) => format!(in alloc; "{fault}"),
    }
}

/// The bytes as a text in quotes, or the fault's text.
pub fn fetched(alloc: Global, answer: Result<Vec<u8>, FetchFault>) -> Result<String, AllocError> {
    match answer {
        Ok(bytes) => quoted(alloc, &bytes),
        Err(fault) => format!(in alloc; "{fault}"),
    }
}

/// The bytes as a text in quotes, or `missing`.
pub fn found(alloc: Global, bytes: Option<&[u8]>) -> Result<String, AllocError> {
    match bytes {
        Some(bytes) => quoted(alloc, bytes),
        None => String::from_str(alloc, "missing"),
    }
}

/// The bytes as a text in quotes.
pub fn quoted(alloc: Global, bytes: &[u8]) -> Result<String, AllocError> {
    match std::str::from_utf8(bytes) {
        Ok(text) => format!(in alloc; "{text:?}"),
        Err(_) => String::from_str(alloc, "no text"),
    }
}
