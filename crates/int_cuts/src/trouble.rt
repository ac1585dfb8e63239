ghost use Rattle.std.specs.Prelude.{◌≡◌};
ghost use Rattle.int_cuts.specs.declared.trouble.Trouble.TheVariants.{Past as Outside, Memory};

use kind_num::Past;
use std::alloc::{AllocError, AllocFailed};

/// Why a row has no cut.
#[derive(Clone, Copy)]
pub(crate) enum Trouble {
    /// A number is outside 128 bits.
    Past(Past),
    Memory,
}

impl From<AllocError> for Trouble {
    ghost from_gives = { λ _ e. e ≡ Memory };

    fn from(_error: AllocError) -> Trouble {
        Trouble::Memory
    }
}

impl<T: Drop> From<AllocFailed<T>> for Trouble {
    ghost from_gives = { λ _ e. e ≡ Memory };

    fn from(_error: AllocFailed<T>) -> Trouble {
        Trouble::Memory
    }
}

impl From<Past> for Trouble {
    ghost from_gives = { λ x e. e ≡ Outside x };

    fn from(past: Past) -> Trouble {
        Trouble::Past(past)
    }
}
