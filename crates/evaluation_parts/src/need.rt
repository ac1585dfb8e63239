//! What a value can need of its own instant.

ghost use Rattle.std.specs.Prelude.{◌≡◌, [], IfOk, map};
ghost use Rattle.lus_meaning.specs.Depends.{a_name, inside};
ghost use Rattle.evaluation_parts.specs.Needed.{need_view, needs_view};

use std::alloc::{AllocError, Global};

/// The beat of a frame, or a name, at the end of a way of calls, each counted from 0.
#[derive(Drop)]
pub enum Need<'a> {
    Beat,
    Name(Vec<u32>, &'a str),
}

impl<'a> Need<'a> {
    /// An equal one.
    pub(crate) fn copied(&self, alloc: Global) -> Result<Need<'a>, AllocError>
        ensures { IfOk result (λ n. need_view n ≡ need_view self.now) }
    {
        match self {
            Need::Beat => Ok(Need::Beat),
            Need::Name(way, name) => Ok(Need::Name(Vec::from_slice(alloc, way)?, *name)),
        }
    }

    /// The same, seen from the frame whose call with that number, counted from 0, it is of: a beat is that frame's own.
    pub(crate) fn inside(&self, alloc: Global, call: u32) -> Result<Need<'a>, AllocError>
        ensures { IfOk result (λ n. need_view n ≡ inside call (need_view self.now)) }
    {
        match self {
            Need::Beat => Ok(Need::Beat),
            Need::Name(way, name) => {
                let mut longer = Vec::with_capacity(alloc, 1 + way.len())?;
                longer.push(call)?;
                longer.extend_from_slice(way)?;
                Ok(Need::Name(longer, *name))
            }
        }
    }
}

/// A name of the frame itself.
pub(crate) fn own_name(alloc: Global, name: &str) -> Need<'_>
    ensures { need_view result ≡ a_name [] name.now }
{
    Need::Name(Vec::new(alloc), name)
}

/// Equal ones.
pub(crate) fn copies<'a>(alloc: Global, needs: &[Need<'a>]) -> Result<Vec<Need<'a>>, AllocError>
    ensures { IfOk result (λ v. needs_view v.items ≡ needs_view needs.now) }
{
    let mut all = Vec::with_capacity(alloc, needs.len())?;
    for need in needs {
        all.push(need.copied(alloc)?)?;
    }
    Ok(all)
}

/// The same, seen from the frame whose call with that number, counted from 0, they are of.
pub(crate) fn all_inside<'a>(
    alloc: Global,
    needs: &[Need<'a>],
    call: u32,
) -> Result<Vec<Need<'a>>, AllocError>
    ensures { IfOk result (λ v. needs_view v.items ≡ map (inside call) (needs_view needs.now)) }
{
    let mut all = Vec::with_capacity(alloc, needs.len())?;
    for need in needs {
        all.push(need.inside(alloc, call)?)?;
    }
    Ok(all)
}
