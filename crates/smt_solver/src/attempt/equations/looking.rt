//! What the bounds that matter come to by equations alone.

ghost use Rattle.std.specs.Prelude.{◌≡◌, true};

use crate::attempt::equations::explaining::{decided, explained};
use crate::attempt::equations::halt::Halt;
use crate::attempt::equations::sides::{Ends, Reach, Side, reach_of, side_of, with_end};
use crate::attempt::equations::table::{Table, reduce, take_equation};
use crate::attempt::equations::valuing::values;
use crate::fault::SolveFault;
use crate::numbers::meanings::Meaning;
use cnf_maker::Cnf;
use int_simplex::Tableau;
use std::alloc::{AllocError, Global};

// So many refutations are looked for at most.
const MOST: usize = 16;

// Fewer bounds than these are not told that stand whatever the variables are.
const FEWEST: usize = 4;

/// What the bounds come to.
#[derive(Drop)]
pub enum Solution {
    /// That takes more than equations.
    Open,
    /// Not all of them can be met.
    Refuted(Refutations),
    /// Values of the variables by which all are met.
    Met(Vec<i128>),
}

/// What refutes the bounds, and what is found besides.
#[derive(Drop)]
pub struct Refutations {
    /// Sums of bounds, multipliers with numbers of atoms, each of which is false.
    pub sums: Vec<Vec<(i128, u32)>>,
    /// Such sums in which the first bound counts as its opposite: the others decide that it stands.
    pub decided: Vec<Vec<(i128, u32)>>,
    /// Values of the variables by which most bounds are met, if there are any within 128 bits.
    pub values: Option<Vec<i128>>,
}

/// What is found so far.
#[derive(Drop)]
struct Findings {
    sides: Vec<Side>,
    /// The places of those over one variable that are met whatever the others are.
    met: Vec<usize>,
    ends: Vec<Ends>,
    refutations: Vec<Vec<(i128, u32)>>,
    is_open: bool,
}

// The terms of a column's sum.
fn terms_of(alloc: Global, sums: &Cnf, column: u32) -> Result<Vec<(u32, i128)>, AllocError> {
    let variables = sums.shapes.len();
    if (column as usize) < variables {
        let own = vec![in alloc; (column, 1)]?;
        return Ok(own);
    }
    match sums.atoms.get((column as usize).wrapping_sub(variables)) {
        Some(sum) => Ok(Vec::from_slice(alloc, sum.terms.as_slice())?),
        None => Ok(Vec::new(alloc)),
    }
}

// The greatest variable of a column's sum.
fn last_variable(sums: &Cnf, column: u32) -> u32 {
    let place = (column as usize).wrapping_sub(sums.shapes.len());
    match sums.atoms.get(place) {
        Some(sum) => match sum.terms.as_slice().last() {
            Some((variable, _)) => *variable,
            None => column,
        },
        None => column,
    }
}

// The columns that the numbered atoms bound, each once, in the order of their greatest variables.
fn bounded(
    alloc: Global,
    sums: &Cnf,
    meanings: &[Meaning],
    numbers: &[u32],
) -> Result<Vec<u32>, AllocError> {
    let mut places = Vec::new(alloc);
    for number in numbers {
        if let Some(meaning) = meanings.get((*number as usize).wrapping_sub(1)) {
            places.push((last_variable(sums, meaning.column), meaning.column))?;
        }
    }
    places.sort_unstable();
    let mut columns = Vec::new(alloc);
    for (_, column) in &places {
        if columns.last() != Some(column) {
            columns.push(*column)?;
        }
    }
    Ok(columns)
}

// The bounds of a column.
fn bounds_of(tableau: &Tableau, column: u32) -> (Option<(i128, u32)>, Option<(i128, u32)>)
    requires { tableau.now.usable ≡ true }
{
    if column >= tableau.columns() {
        return (None, None);
    }
    (tableau.bound(column, false), tableau.bound(column, true))
}

// Takes the column's equation, where its bounds meet and a variable can be defined by it.
fn is_taken(
    alloc: Global,
    tableau: &Tableau,
    sums: &Cnf,
    table: &mut Table,
    column: u32,
) -> Result<bool, Halt>
    requires { tableau.now.usable ≡ true }
{
    match bounds_of(tableau, column) {
        (Some((low, _)), Some((high, _))) if low == high => {
            let terms = terms_of(alloc, sums, column)?;
            match take_equation(alloc, table, column, terms, low) {
                Err(Halt::Wide) => Ok(false),
                taken => taken,
            }
        }
        _ => Ok(false),
    }
}

// Takes the equations among the columns, and gives the other columns.
fn take_equations(
    alloc: Global,
    tableau: &Tableau,
    sums: &Cnf,
    table: &mut Table,
    columns: &[u32],
) -> Result<Vec<u32>, Halt>
    requires { tableau.now.usable ≡ true }
{
    let mut others = Vec::new(alloc);
    for column in columns {
        if !is_taken(alloc, tableau, sums, table, *column)? {
            others.push(*column)?;
        }
    }
    Ok(others)
}

// Keeps the refutation by the sides at these places.
fn note_refutation(
    alloc: Global,
    tableau: &Tableau,
    table: &Table,
    findings: &mut Findings,
    first: usize,
    second: Option<usize>,
) -> Result<(), Halt>
    requires { tableau.now.usable ≡ true }
{
    let Some(one) = findings.sides.get(first) else {
        return Ok(());
    };
    let other = match second {
        Some(place) => findings.sides.get(place),
        None => None,
    };
    let parts = explained(alloc, tableau, table, one, other)?;
    findings.refutations.push(parts)?;
    Ok(())
}

// Narrows the limits of a variable by the side at this place.
fn narrow(
    alloc: Global,
    tableau: &Tableau,
    table: &Table,
    findings: &mut Findings,
    variable: u32,
    is_upper: bool,
    limit: i128,
    place: usize,
) -> Result<(), Halt>
    requires { tableau.now.usable ≡ true }
{
    let Some(ends) = findings.ends.get_mut(variable as usize) else {
        return Err(Halt::Wide);
    };
    let (narrowed, crossed) = with_end(*ends, is_upper, limit, place);
    *ends = narrowed;
    match crossed {
        Some((first, second)) => {
            note_refutation(alloc, tableau, table, findings, first, Some(second))
        }
        None => Ok(()),
    }
}

// Looks at a bound of a column.
fn look_at_bound(
    alloc: Global,
    tableau: &Tableau,
    sums: &Cnf,
    table: &Table,
    findings: &mut Findings,
    column: u32,
    is_upper: bool,
    bound: (i128, u32),
) -> Result<(), Halt>
    requires { tableau.now.usable ≡ true }
{
    let terms = terms_of(alloc, sums, column)?;
    let reduced = reduce(alloc, table, terms)?;
    let side = side_of(is_upper, bound.0, bound.1, reduced)?;
    let reach = reach_of(&side)?;
    let place = findings.sides.len();
    findings.sides.push(side)?;
    match reach {
        Reach::Met if (column as usize) < sums.shapes.len() => {
            findings.met.push(place)?;
            Ok(())
        }
        Reach::Met => Ok(()),
        Reach::Missed => note_refutation(alloc, tableau, table, findings, place, None),
        Reach::Ends(variable, is_upper, limit) => narrow(
            alloc, tableau, table, findings, variable, is_upper, limit, place,
        ),
        Reach::Open => Err(Halt::Wide),
    }
}

// The same, where there is such a bound. What is too wide is left open.
fn look_at(
    alloc: Global,
    tableau: &Tableau,
    sums: &Cnf,
    table: &Table,
    findings: &mut Findings,
    column: u32,
    is_upper: bool,
    bound: Option<(i128, u32)>,
) -> Result<(), AllocError>
    requires { tableau.now.usable ≡ true }
{
    let Some(bound) = bound else {
        return Ok(());
    };
    match look_at_bound(
        alloc, tableau, sums, table, findings, column, is_upper, bound,
    ) {
        Ok(()) => Ok(()),
        Err(Halt::Wide) => {
            findings.is_open = true;
            Ok(())
        }
        Err(Halt::Memory) => Err(AllocError),
    }
}

// Looks at the bounds of the columns, until there are refutations enough.
fn look_at_all(
    alloc: Global,
    tableau: &Tableau,
    sums: &Cnf,
    table: &Table,
    findings: &mut Findings,
    columns: &[u32],
) -> Result<(), AllocError>
    requires { tableau.now.usable ≡ true }
{
    for column in columns {
        if findings.refutations.len() >= MOST {
            return Ok(());
        }
        let (low, high) = bounds_of(tableau, *column);
        look_at(alloc, tableau, sums, table, findings, *column, false, low)?;
        look_at(alloc, tableau, sums, table, findings, *column, true, high)?;
    }
    Ok(())
}

// Why the bounds at these places stand. A few are found as fast by further refutations.
fn all_decided(
    alloc: Global,
    tableau: &Tableau,
    table: &Table,
    sides: &[Side],
    met: &[usize],
) -> Result<Vec<Vec<(i128, u32)>>, AllocError>
    requires { tableau.now.usable ≡ true }
{
    let mut sums = Vec::new(alloc);
    if met.len() < FEWEST {
        return Ok(sums);
    }
    for place in met {
        if let Some(side) = sides.get(*place) {
            match decided(alloc, tableau, table, side) {
                Ok(parts) => sums.push(parts)?,
                Err(Halt::Wide) => {}
                Err(Halt::Memory) => return Err(AllocError),
            }
        }
    }
    Ok(sums)
}

// What was found, of bounds that can't all be met.
fn refuted(
    alloc: Global,
    tableau: &Tableau,
    table: &Table,
    findings: Findings,
) -> Result<Refutations, Halt>
    requires { tableau.now.usable ≡ true }
{
    Ok(Refutations {
        decided: all_decided(alloc, tableau, table, &findings.sides, &findings.met)?,
        sums: findings.refutations,
        values: values(alloc, table, &findings.ends).ok(),
    })
}

// What was found.
fn concluded(
    alloc: Global,
    tableau: &Tableau,
    table: &Table,
    findings: Findings,
) -> Result<Solution, Halt>
    requires { tableau.now.usable ≡ true }
{
    if !findings.refutations.is_empty() {
        let found = refuted(alloc, tableau, table, findings)?;
        return Ok(Solution::Refuted(found));
    }
    if findings.is_open {
        return Ok(Solution::Open);
    }
    Ok(Solution::Met(values(alloc, table, &findings.ends)?))
}

fn look(
    alloc: Global,
    tableau: &Tableau,
    sums: &Cnf,
    meanings: &[Meaning],
    numbers: &[u32],
) -> Result<Solution, Halt>
    requires { tableau.now.usable ≡ true }
{
    let variables = sums.shapes.len();
    let columns = bounded(alloc, sums, meanings, numbers)?;
    let mut table = Table::new(alloc, variables)?;
    let others = take_equations(alloc, tableau, sums, &mut table, &columns)?;
    let none = Ends {
        low: None,
        high: None,
    };
    let mut findings = Findings {
        sides: Vec::new(alloc),
        met: Vec::new(alloc),
        ends: vec![in alloc; none; variables]?,
        refutations: Vec::new(alloc),
        is_open: false,
    };
    look_at_all(alloc, tableau, sums, &table, &mut findings, &others)?;
    concluded(alloc, tableau, &table, findings)
}

/// What the bounds of the tableau come to by equations alone, which are those that the numbered atoms mean.
pub fn solution_of(
    alloc: Global,
    tableau: &Tableau,
    sums: &Cnf,
    meanings: &[Meaning],
    numbers: &[u32],
) -> Result<Solution, SolveFault>
    requires { tableau.now.usable ≡ true }
{
    match look(alloc, tableau, sums, meanings, numbers) {
        Ok(found) => Ok(found),
        Err(Halt::Wide) => Ok(Solution::Open),
        Err(Halt::Memory) => Err(SolveFault::Memory),
    }
}
