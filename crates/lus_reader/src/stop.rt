//! What readers find, or why they stop.

ghost use Rattle.std.specs.Prelude.{◌≡◌};
ghost use Rattle.lus_reader.specs.declared.stop.Stop.TheVariants.{Memory};

use crate::counts::Counts;
use lus_tree::Expr;
use std::alloc::AllocError;

/// An expression, the first token behind it and the counts there.
#[derive(Drop)]
pub(crate) struct Found {
    pub expr: Box<Expr>,
    pub next: usize,
    pub counts: Counts,
}

/// Some expressions, the first token behind them and the counts there.
#[derive(Drop)]
pub(crate) struct List {
    pub items: Vec<Expr>,
    pub next: usize,
    pub counts: Counts,
}

/// Memory ran out, or no text goes on with that token.
#[derive(Clone, Copy)]
pub(crate) enum Stop {
    Memory,
    Unexpected(usize),
}

impl From<AllocError> for Stop {
    ghost from_gives = { λ e r. r ≡ Memory };

    fn from(_: AllocError) -> Stop {
        Stop::Memory
    }
}
