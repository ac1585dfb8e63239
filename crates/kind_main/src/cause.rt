//! Why an engine leaves a property undecided.

ghost use Rattle.std.specs.Prelude.{◌≡◌, true, IfOk};
ghost use Rattle.board_core.specs.Books.{machine_of, plan_of, history_of};
ghost use Rattle.board_core.specs.Seats.{has_cause};
ghost use Rattle.kind_main.specs.Options.{number_of};
ghost use Rattle.kind_main.specs.Causes.{because_view, IsTrueCause};

use crate::options::EngineName;
use board_core::{Book, Cause};
use std::alloc::{AllocError, Global};

/// An engine and its cause.
#[derive(Drop)]
pub struct Because {
    pub engine: EngineName,
    pub cause: Cause,
}

/// The cause of this engine that the book has for a property.
pub fn cause_in(
    alloc: Global,
    book: &Book,
    engine: EngineName,
    property: u32,
) -> Result<Because, AllocError>
    requires posted { has_cause (number_of engine) (number_of engine) property (history_of book.now) ≡ true }
    ensures engine { IfOk result (λ b. b.engine ≡ engine) }
    ensures is_true { IfOk result (λ b. IsTrueCause (machine_of book.now) (plan_of book.now) (history_of book.now)
        property (because_view b)) }
{
    let _entries = book.count();
    let Some(cause) = book.spent(engine.number(), property) else {
        unreachable!();
    };
    let cause = cause.copied(alloc)?;
    Ok(Because { engine, cause })
}
