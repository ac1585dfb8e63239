//! Why a query has no clause form.

ghost use Rattle.std.specs.Prelude.{◌≡◌};
ghost use Rattle.cnf_maker.specs.declared.fault.CnfFault.TheVariants.{Past as PastBits, Memory};

use kind_num::Past;
use std::alloc::{AllocError, AllocFailed};
use thiserror::Error;

/// Why a query has no clause form.
#[derive(Clone, Copy, Debug, PartialEq, Eq, Error)]
pub enum CnfFault {
    /// A coefficient or a bound is outside 128 bits: the first operation on them that is, in the
    /// order in which the clause form is made.
    #[error("a coefficient or a bound is outside 128 bits")]
    Past(Past),
    /// Memory ran out, or there are more variables, atoms or clauses than 32 bits number.
    #[error("out of memory")]
    Memory,
}

impl From<AllocError> for CnfFault {
    ghost from_gives = { λ _ e. e ≡ Memory };

    fn from(_error: AllocError) -> CnfFault {
        CnfFault::Memory
    }
}

impl<T: Drop> From<AllocFailed<T>> for CnfFault {
    ghost from_gives = { λ _ e. e ≡ Memory };

    fn from(_error: AllocFailed<T>) -> CnfFault {
        CnfFault::Memory
    }
}

impl From<Past> for CnfFault {
    ghost from_gives = { λ p e. e ≡ PastBits p };

    fn from(past: Past) -> CnfFault {
        CnfFault::Past(past)
    }
}
