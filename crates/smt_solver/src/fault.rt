//! Why an obligation was not answered.

ghost use Rattle.std.specs.Prelude.{◌≡◌};
ghost use Rattle.smt_solver.specs.declared.fault.SolveFault.TheVariants.{Memory};

use int_simplex::TableauFault;
use sat_core::SearchFault;
use std::alloc::{AllocError, AllocFailed};
use sys_terms::QueryFault;
use thiserror::Error;

/// Why an obligation was not answered.
#[derive(Clone, Copy, Debug, PartialEq, Eq, Error)]
pub enum SolveFault {
    /// Memory ran out, or there are more variables, conditions or clauses than 32 bits number.
    #[error("out of memory")]
    Memory,
}

impl From<AllocError> for SolveFault {
    ghost from_gives = { λ _ e. e ≡ Memory };

    fn from(_error: AllocError) -> SolveFault {
        SolveFault::Memory
    }
}

impl<T: Drop> From<AllocFailed<T>> for SolveFault {
    ghost from_gives = { λ _ e. e ≡ Memory };

    fn from(_error: AllocFailed<T>) -> SolveFault {
        SolveFault::Memory
    }
}

impl From<QueryFault> for SolveFault {
    fn from(fault: QueryFault) -> SolveFault {
        match fault {
            QueryFault::Memory => SolveFault::Memory,
        }
    }
}

impl From<SearchFault> for SolveFault {
    fn from(fault: SearchFault) -> SolveFault {
        match fault {
            SearchFault::Memory => SolveFault::Memory,
        }
    }
}

impl From<TableauFault> for SolveFault {
    fn from(fault: TableauFault) -> SolveFault {
        match fault {
            TableauFault::Memory => SolveFault::Memory,
        }
    }
}
