//! Want of memory, the one fault of a book and of what stands on it.

ghost use Rattle.std.specs.Prelude.{◌≡◌, alloc_error};
ghost use Rattle.board_core.specs.declared.fault.BookFault.TheVariants.{Memory};
ghost use Rattle.board_core.specs.declared.fault.EngineFault.TheVariants.{Memory as NoTurn};
ghost use Rattle.board_core.specs.declared.fault.PlayFault.TheVariants.{Memory as NoPlay};

use crate::entry::Entry;
use std::alloc::{AllocError, AllocFailed};
use thiserror::Error;

/// Out of memory; the entry comes back.
#[derive(Debug, Drop, Error)]
#[error("out of memory")]
pub struct PostBack {
    pub entry: Entry,
}

/// Why a call of a book failed.
#[derive(Clone, Copy, Debug, PartialEq, Eq, Error)]
pub enum BookFault {
    #[error("out of memory")]
    Memory,
}

impl From<AllocError> for BookFault {
    ghost from_gives = { λ _ e. e ≡ Memory };

    fn from(_error: AllocError) -> BookFault {
        BookFault::Memory
    }
}

impl<T: Drop> From<AllocFailed<T>> for BookFault {
    ghost from_gives = { λ _ e. e ≡ Memory };

    fn from(_error: AllocFailed<T>) -> BookFault {
        BookFault::Memory
    }
}

/// Why a turn of an engine failed. The engine is then only dropped.
#[derive(Clone, Copy, Debug, PartialEq, Eq, Error)]
pub enum EngineFault {
    #[error("out of memory")]
    Memory,
}

impl From<AllocError> for EngineFault {
    ghost from_gives = { λ _ e. e ≡ NoTurn };

    fn from(_error: AllocError) -> EngineFault {
        EngineFault::Memory
    }
}

impl<T: Drop> From<AllocFailed<T>> for EngineFault {
    ghost from_gives = { λ _ e. e ≡ NoTurn };

    fn from(_error: AllocFailed<T>) -> EngineFault {
        EngineFault::Memory
    }
}

impl From<BookFault> for EngineFault {
    ghost from_gives = { λ _ e. e ≡ NoTurn };

    fn from(_fault: BookFault) -> EngineFault {
        EngineFault::Memory
    }
}

impl From<PostBack> for EngineFault {
    ghost from_gives = { λ _ e. e ≡ NoTurn };

    fn from(_back: PostBack) -> EngineFault {
        EngineFault::Memory
    }
}

impl From<EngineFault> for AllocError {
    ghost from_gives = { λ _ e. e ≡ alloc_error };

    fn from(_fault: EngineFault) -> AllocError {
        AllocError
    }
}

/// Why a play failed. Both engines are then only dropped.
#[derive(Clone, Copy, Debug, PartialEq, Eq, Error)]
pub enum PlayFault {
    #[error("out of memory")]
    Memory,
}

impl From<EngineFault> for PlayFault {
    ghost from_gives = { λ _ e. e ≡ NoPlay };

    fn from(_fault: EngineFault) -> PlayFault {
        PlayFault::Memory
    }
}

impl From<PlayFault> for AllocError {
    ghost from_gives = { λ _ e. e ≡ alloc_error };

    fn from(_fault: PlayFault) -> AllocError {
        AllocError
    }
}
