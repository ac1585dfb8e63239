//! Why a trace has no answer.

ghost use Rattle.std.specs.Prelude.{◌≡◌};
ghost use Rattle.program_replay.specs.declared.fault.ReplayFault.TheVariants.{Memory};

use kind_num::Past;
use lus_tree::Pos;
use std::alloc::{AllocError, AllocFailed};
use thiserror::Error;

/// Why a trace is not replayed.
#[derive(Clone, Copy, Debug, Error)]
pub enum ReplayFault {
    /// The trace doesn't fit the program. The place is that of the first word that doesn't.
    #[error("trace goes wrong at {}:{}", .0.line, .0.column)]
    Form(Pos),
    /// The first value outside 128 bits that the evaluation meets: the place of its operator, the instant and the
    /// operands.
    #[error("a number is outside 128 bits at {}:{}, instant {instant}", .at.line, .at.column)]
    Past { at: Pos, instant: u32, past: Past },
    /// Want of memory.
    #[error("out of memory")]
    Memory,
}

impl From<AllocError> for ReplayFault {
    ghost from_gives = { λ _ e. e ≡ Memory };

    fn from(_e: AllocError) -> ReplayFault {
        ReplayFault::Memory
    }
}

impl<T: Drop> From<AllocFailed<T>> for ReplayFault {
    ghost from_gives = { λ _ e. e ≡ Memory };

    fn from(_e: AllocFailed<T>) -> ReplayFault {
        ReplayFault::Memory
    }
}
