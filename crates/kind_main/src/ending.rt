//! How a command ends.

ghost use Rattle.std.specs.Prelude.{◌≡◌};
ghost use Rattle.kind_main.specs.declared.ending.Stopped.TheVariants.{Memory};

use crate::status::Status;
use std::alloc::{AllocError, AllocFailed};
use thiserror::Error;

/// What a command that was carried out prints, the bytes of each line with its line feed, and its status.
#[derive(Debug, Drop)]
pub struct Report {
    pub lines: Vec<Vec<u8>>,
    pub status: Status,
}

/// Why a command was not carried out.
#[derive(Debug, Drop, Error)]
pub enum Stopped {
    /// The words are of no form that is built.
    #[error("the words are of no form that is built")]
    Usage,
    /// The file of this name could not be read.
    #[error("the file {0} could not be read")]
    Unread(String),
    /// The source or the trace is refused, as this line says.
    #[error("{0}")]
    Refused(String),
    /// Want of memory.
    #[error("out of memory")]
    Memory,
}

impl From<AllocError> for Stopped {
    ghost from_gives = { λ _ e. e ≡ Memory };

    fn from(_e: AllocError) -> Stopped {
        Stopped::Memory
    }
}

impl<T: Drop> From<AllocFailed<T>> for Stopped {
    ghost from_gives = { λ _ e. e ≡ Memory };

    fn from(_e: AllocFailed<T>) -> Stopped {
        Stopped::Memory
    }
}
