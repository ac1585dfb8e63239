//! Lists of numbers in 32 bits.

ghost use Rattle.std.specs.Prelude.{◌≡◌, IfOk, map};
ghost use Rattle.lus_order.specs.Dependences.{orders_seen};

use lus_order::Dependence;
use std::alloc::{AllocError, Global};

/// A list of numbers, in 32 bits.
///
/// # Errors
///
/// Want of memory, or a number that 32 bits can't hold.
pub(crate) fn narrowed(alloc: Global, list: &[usize]) -> Result<Vec<u32>, AllocError>
    ensures { IfOk result (λ v. v.items ≡ list.now) }
{
    let mut numbers = Vec::new(alloc);
    for number in list {
        let Ok(number) = u32::try_from(*number) else {
            return Err(AllocError);
        };
        numbers.push(number)?;
    }
    Ok(numbers)
}

/// Lists of numbers, in 32 bits.
///
/// # Errors
///
/// Want of memory, or a number that 32 bits can't hold.
pub(crate) fn all_narrowed(alloc: Global, lists: &[Vec<usize>]) -> Result<Vec<Vec<u32>>, AllocError>
    ensures { IfOk result (λ v. map (λ o. o.items) v.items ≡ map (λ o. o.items) lists.now) }
{
    let mut all = Vec::new(alloc);
    for list in lists {
        all.push(narrowed(alloc, list)?)?;
    }
    Ok(all)
}

/// The orders of the equations of declarations, in 32 bits.
///
/// # Errors
///
/// Want of memory, or a number that 32 bits can't hold.
pub(crate) fn all_orders(alloc: Global, found: &[Dependence]) -> Result<Vec<Vec<u32>>, AllocError>
    ensures { IfOk result (λ v. map (λ o. o.items) v.items ≡ orders_seen found.now) }
{
    let mut all = Vec::new(alloc);
    for dependence in found {
        all.push(narrowed(alloc, &dependence.order)?)?;
    }
    Ok(all)
}
