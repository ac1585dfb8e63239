//! Why a trace is refused, by its text or by the program.

ghost use Rattle.std.specs.Prelude.{◌≡◌};
ghost use Rattle.trace_text.specs.declared.fault.TraceFault.TheVariants.{Form, Memory};

use lus_tree::Pos;
use std::alloc::{AllocError, AllocFailed};
use thiserror::Error;

/// Why a trace is not read, written, or fitted to a program.
#[derive(Clone, Copy, Debug, Error)]
pub enum TraceFault {
    /// The text is outside the format, or the trace doesn't fit the program. The place is that of the first word or line
    /// end that goes wrong.
    #[error("trace goes wrong at {}:{}", .0.line, .0.column)]
    Form(Pos),
    /// Want of memory.
    #[error("out of memory")]
    Memory,
}

impl From<AllocError> for TraceFault {
    ghost from_gives = { λ _ e. e ≡ Memory };

    fn from(_e: AllocError) -> TraceFault {
        TraceFault::Memory
    }
}

impl<T: Drop> From<AllocFailed<T>> for TraceFault {
    ghost from_gives = { λ _ e. e ≡ Memory };

    fn from(_e: AllocFailed<T>) -> TraceFault {
        TraceFault::Memory
    }
}

impl From<Pos> for TraceFault {
    ghost from_gives = { λ p e. e ≡ Form p };

    fn from(p: Pos) -> TraceFault {
        TraceFault::Form(p)
    }
}
