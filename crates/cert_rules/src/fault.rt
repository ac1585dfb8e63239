//! Why something is no fact.

ghost use Rattle.std.specs.Prelude.{◌≡◌};
ghost use Rattle.cert_rules.specs.declared.fault.RuleFault.TheVariants.{Memory};

use proof_checker::Rule;
use std::alloc::{AllocError, AllocFailed};
use thiserror::Error;

/// Why something is no fact.
#[derive(Clone, Copy, Debug, PartialEq, Eq, Error)]
pub enum RuleFault {
    /// The first part that breaks a rule, with the first rule that it breaks. The part is the number
    /// of the refutation from 0, and 0 for a rule of the whole entry.
    #[error("part {part} breaks the rule {rule:?}")]
    Refused { part: u32, rule: Rule },
    /// Memory ran out, or a list would reach a length that 32 bits do not number.
    #[error("out of memory")]
    Memory,
}

impl From<AllocError> for RuleFault {
    ghost from_gives = { λ _ e. e ≡ Memory };

    fn from(_error: AllocError) -> RuleFault {
        RuleFault::Memory
    }
}

impl<T: Drop> From<AllocFailed<T>> for RuleFault {
    ghost from_gives = { λ _ e. e ≡ Memory };

    fn from(_error: AllocFailed<T>) -> RuleFault {
        RuleFault::Memory
    }
}
