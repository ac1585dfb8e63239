//! Equal copies of expressions over slots.

ghost use Rattle.std.specs.Prelude.{◌≡◌, IfOk};
ghost use Rattle.slot_values.specs.Resolution.{resolved_view};

use slot_values::Resolved;
use std::alloc::{AllocError, Global};

/// An equal expression.
///
/// # Errors
///
/// Want of memory.
#[cycle(copied)]
pub fn copied(alloc: Global, e: &Resolved) -> Result<Resolved, AllocError>
    ensures { IfOk result (λ r. resolved_view r ≡ resolved_view e.now) }
{
    match e {
        Resolved::Known(value) => Ok(Resolved::Known(*value)),
        Resolved::Slot(slot) => Ok(Resolved::Slot(*slot)),
        Resolved::Not(a) => Ok(Resolved::Not(boxed(alloc, a)?)),
        Resolved::Minus(at, a) => Ok(Resolved::Minus(*at, boxed(alloc, a)?)),
        Resolved::Binary(at, operator, a, b) => Ok(Resolved::Binary(
            *at,
            *operator,
            boxed(alloc, a)?,
            boxed(alloc, b)?,
        )),
        Resolved::If(a, b, c) => Ok(Resolved::If(
            boxed(alloc, a)?,
            boxed(alloc, b)?,
            boxed(alloc, c)?,
        )),
        Resolved::Arrow(slot, a, b) => Ok(Resolved::Arrow(
            *slot,
            boxed(alloc, a)?,
            boxed(alloc, b)?,
        )),
        Resolved::When(slot, wanted, a) => Ok(Resolved::When(*slot, *wanted, boxed(alloc, a)?)),
        Resolved::Merge(slot, a, b) => Ok(Resolved::Merge(
            *slot,
            boxed(alloc, a)?,
            boxed(alloc, b)?,
        )),
        Resolved::Latest(a, beat, output, held) => {
            Ok(Resolved::Latest(boxed(alloc, a)?, *beat, *output, *held))
        }
    }
}

/// An equal expression in a box.
#[cycle(copied)]
fn boxed(alloc: Global, e: &Resolved) -> Result<Box<Resolved>, AllocError>
    ensures { IfOk result (λ b. resolved_view b.value ≡ resolved_view e.now) }
{
    let copy = copied(alloc, e)?;
    Ok(Box::new(alloc, copy)?)
}
