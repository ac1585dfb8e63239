//! Why equations are left to the tableau.

use kind_num::Past;
use std::alloc::{AllocError, AllocFailed};

/// Why a sum is left as it is.
#[derive(Clone, Copy)]
pub enum Halt {
    /// It has too many terms, or numbers outside 128 bits.
    Wide,
    Memory,
}

impl From<AllocError> for Halt {
    fn from(_error: AllocError) -> Halt {
        Halt::Memory
    }
}

impl<T: Drop> From<AllocFailed<T>> for Halt {
    fn from(_error: AllocFailed<T>) -> Halt {
        Halt::Memory
    }
}

impl From<Past> for Halt {
    fn from(_past: Past) -> Halt {
        Halt::Wide
    }
}
