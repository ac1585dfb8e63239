//! Copies of lists.

ghost use Rattle.std.specs.Prelude.{◌≡◌, IfOk, map};

use std::alloc::{AllocError, Global};

/// What can be copied, and what contracts see of it.
pub(crate) trait Copied: Drop {
    ghost View: { Type 0 };

    ghost view: { Self → View };

    /// An equal value.
    fn copy(&self, alloc: Global) -> Result<Self, AllocError>
        ensures { IfOk result (λ c. view c ≡ view self.now) };
}

/// A list of equal values.
pub(crate) fn copied_list<T: Copied>(all: &[T], alloc: Global) -> Result<Vec<T>, AllocError>
    ensures { IfOk result (λ v. map T.view v.items ≡ map T.view all.now) }
{
    let mut copies = Vec::with_capacity(alloc, all.len())?;
    for one in all {
        copies.push(one.copy(alloc)?)?;
    }
    Ok(copies)
}
