//! Tables of the first of each name.

ghost use Rattle.std.specs.Prelude.{◌≡◌, Some, None, cond, OnErr, OnOk};
ghost use Rattle.std.specs.Option.{option_or};
ghost use Rattle.std.specs.Str.{bytes_eq};
ghost use Rattle.lus_tree.specs.Tree.{Name};
ghost use Rattle.lus_scopes.specs.Meanings.{by_name};

use indexmap::IndexMap;
use std::alloc::AllocError;

/// Notes the value of a name that has none yet.
///
/// # Errors
///
/// Want of memory; each name has then what it had.
pub(crate) fn note<'a, V: Drop>(
    table: &mut IndexMap<&'a str, V>,
    name: &'a str,
    value: V,
) -> Result<(), AllocError>
    ensures noted { OnOk result ((x : Name) → by_name table.new x ≡ option_or (by_name table.old x)
        (cond (bytes_eq x name.now) (Some value) None)) }
    ensures kept { OnErr result ((x : Name) → by_name table.new x ≡ by_name table.old x) }
{
    if !table.contains_key(name) {
        table.insert(name, value)?;
    }
    Ok(())
}
