//! An engine that does nothing.

ghost use Rattle.std.specs.Prelude.{◌≡◌, [], None};
ghost use Rattle.board_core.specs.declared.engine.Progress.TheVariants.{Spent};

use board_core::{BoardSeat, Engine, EngineFault, Progress};
use std::alloc::Global;

/// An engine that does nothing.
#[derive(Clone, Copy, Debug)]
pub struct Sleeper {}

impl Engine for Sleeper {
    ghost number = { λ e. None };

    ghost machine = { λ e. None };

    ghost plan = { λ e. None };

    ghost known = { λ e. [] };

    ghost owed = { λ e. [] };

    ghost steps = { λ e. 0 };

    ghost turn_gives = { λ e before p f after. (p ≡ Spent) × (after ≡ before) };

    fn turn<B: BoardSeat>(
        &mut self,
        _alloc: Global,
        _seat: &mut B,
    ) -> Result<Progress, EngineFault> {
        Ok(Progress::Spent)
    }

    fn left(&self) -> u64 {
        0
    }
}
