//! Tables by names.

ghost use Rattle.std.specs.Prelude.{◌≡◌, Some, None, cond, OnOk};
ghost use Rattle.std.specs.Option.{option_or};
ghost use Rattle.std.specs.Str.{bytes_eq};
ghost use Rattle.lus_tree.specs.Tree.{Name};
ghost use Rattle.sys_texts.specs.Views.{by_name};

use indexmap::IndexMap;
use std::alloc::AllocError;

/// Notes the value of a name that has none yet.
pub(crate) fn note<'a, V: Copy + Drop>(
    table: &mut IndexMap<&'a str, V>,
    name: &'a str,
    value: V,
) -> Result<(), AllocError>
    ensures { OnOk result ((x : Name) → by_name table.new x ≡ option_or (by_name table.old x)
        (cond (bytes_eq x name.now) (Some value) None)) }
{
    if !table.contains_key(name) {
        table.insert(name, value)?;
    }
    Ok(())
}
