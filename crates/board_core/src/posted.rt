//! Entries that have a place.

use crate::entry::Made;

/// An entry with its seat's number.
#[derive(Drop)]
pub(crate) struct Posted {
    pub(crate) seat: u32,
    pub(crate) made: Made,
}
