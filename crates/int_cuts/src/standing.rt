ghost use Rattle.std.specs.Prelude.{◌≡◌, ◌<◌, true};
ghost use Rattle.int_simplex.specs.Given.{IsWithin};
ghost use Rattle.int_cuts.specs.Parts.{IsAtLimit, IsBoundAt, IsLooseAt, IsFirstLoose};

use int_simplex::Tableau;

// The bound, where the value is its limit.
fn at_limit(value: (i128, i128), bound: Option<(i128, u32)>) -> Option<(i128, u32)>
    ensures { IsAtLimit value bound result }
{
    match bound {
        Some((limit, literal)) if value.1 == 1 && value.0 == limit => Some((limit, literal)),
        _ => None,
    }
}

// The bound at which the column stands, with its side.
pub(crate) fn bound_at(tableau: &Tableau, column: u32) -> Option<(bool, i128, u32)>
    requires usable { tableau.now.usable ≡ true }
    requires in_range { column < tableau.now.columns }
    ensures { IsBoundAt tableau.now column result }
{
    let value = tableau.value(column);
    if let Some((limit, literal)) = at_limit(value, tableau.bound(column, false)) {
        return Some((false, limit, literal));
    }
    if let Some((limit, literal)) = at_limit(value, tableau.bound(column, true)) {
        return Some((true, limit, literal));
    }
    None
}

// The column is not x, and stands at none of its bounds.
fn is_loose(tableau: &Tableau, x: u32, column: u32) -> bool
    requires usable { tableau.now.usable ≡ true }
    requires in_range { column < tableau.now.columns }
    ensures { IsLooseAt tableau.now x column result }
{
    column != x && bound_at(tableau, column).is_none()
}

// The first column of the row beside x that stands at none of its bounds.
pub(crate) fn loose_in(tableau: &Tableau, row: &[(u32, i128)], x: u32) -> Option<u32>
    requires usable { tableau.now.usable ≡ true }
    requires in_range { IsWithin tableau.now.columns row.now }
    ensures { IsFirstLoose tableau.now row.now x result }
{
    for t in row {
        let (column, _) = *t;
        if is_loose(tableau, x, column) {
            return Some(column);
        }
    }
    None
}
