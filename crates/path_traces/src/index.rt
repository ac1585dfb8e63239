//! Tables of the places of names in a list, by hashing.

ghost use Rattle.std.specs.Prelude.{◌≡◌, None, OnOk, Some, cond, unwrap_or};
ghost use Rattle.std.specs.Option.{option_or};
ghost use Rattle.std.specs.Str.{bytes_eq};
ghost use Rattle.lus_tree.specs.Tree.{Name};
ghost use Rattle.path_traces.specs.Indexed.{by_name};

use indexmap::IndexMap;
use std::alloc::AllocError;

/// Notes the place of a name that has none yet.
pub(crate) fn note<'a>(
    places: &mut IndexMap<&'a str, usize>,
    name: &'a str,
    place: usize,
) -> Result<(), AllocError>
    ensures { OnOk result ((x : Name) → by_name places.new x ≡ option_or (by_name places.old x)
        (cond (bytes_eq x name.now) (Some place) None)) }
{
    if !places.contains_key(name) {
        places.insert(name, place)?;
    }
    Ok(())
}

/// The place of a name; `past` where it has none.
pub(crate) fn place_or(places: &IndexMap<&str, usize>, name: &str, past: usize) -> usize
    ensures { result ≡ unwrap_or (by_name places.now name.now) past }
{
    places.get(name).copied().unwrap_or(past)
}
