//! Cuts, with the steps that they follow by.

ghost use Rattle.std.specs.Prelude.{◌≡◌, ◌<◌, ◌-◌, ◌^◌, ◌++◌, ◌∷◌, [], true, map, length, IfOk};
ghost use Rattle.proof_steps.specs.declared.Literal.TheVariants.{Atom as OfAtom};
ghost use Rattle.proof_steps.specs.View.{atom_view, clause_view, line_view, step_view};
ghost use Rattle.smt_solver.specs.Cutting.{numbered_in, used_in, closing_line, cut_move, move_of_cut};
ghost use Rattle.smt_solver.specs.Used.{denied_by};

use crate::attempt::columns::{is_same_sum, meaning_over, normal_sum, only_variable};
use crate::attempt::record::{Record, add};
use crate::attempt::splitting::{add_neighbours, next_number};
use crate::fault::SolveFault;
use crate::numbers::meanings::Meaning;
use crate::numbers::steps::{Used, clause_of, own_lines, refuting_step, sum_line, uses};
use int_cuts::{Cut, CutAnswer, CutFault, cut_of};
use int_simplex::Tableau;
use proof_steps::{Atom, Clause, Line, Literal, Source, Step};
use sat_core::Search;
use std::alloc::{AllocError, Global};

// 2^62; cuts with larger numbers are left.
const LARGE: u128 = 4_611_686_018_427_387_904;

fn is_small(atom: &Atom) -> bool {
    for (_, coefficient) in atom.terms.as_slice() {
        if coefficient.unsigned_abs() >= LARGE {
            return false;
        }
    }
    atom.bound.unsigned_abs() < LARGE
}

/// The cut of the values, where there is one with small numbers.
pub fn small_cut(alloc: Global, tableau: &Tableau) -> Result<Option<Cut>, SolveFault>
    requires { tableau.now.usable ≡ true }
{
    match cut_of(alloc, tableau) {
        Ok(CutAnswer::Cut(cut)) if is_small(&cut.atom) => Ok(Some(cut)),
        Ok(_) => Ok(None),
        Err(CutFault::Memory) => Err(SolveFault::Memory),
    }
}

// The place of the sum among these.
fn place_of(sums: &[Atom], sum: &Atom) -> Option<u32> {
    for place in 0..u32::MAX {
        match sums.get(place as usize) {
            Some(other) if is_same_sum(other, sum) => return Some(place),
            Some(_) => (),
            None => break,
        }
    }
    None
}

/// The column of the atom's sum, where the first of these has this one. A new sum is put behind them.
pub fn column_among(
    alloc: Global,
    sums: &mut Vec<Atom>,
    first: u32,
    atom: &Atom,
) -> Result<u32, AllocError> {
    let sum = normal_sum(alloc, atom)?;
    if let Some(x) = only_variable(&sum) {
        return Ok(x);
    }
    if let Some(place) = place_of(sums, &sum) {
        return Ok(first.wrapping_add(place));
    }
    let Ok(place) = u32::try_from(sums.len()) else {
        return Err(AllocError);
    };
    sums.push(sum)?;
    Ok(first.wrapping_add(place))
}

// The multipliers of a line's bounds, each with the number of the bound's atom.
fn numbered(alloc: Global, parts: &[(i128, Source)]) -> Result<Vec<(i128, u32)>, AllocError>
    ensures { IfOk result (λ v. v.items ≡ numbered_in parts.now) }
{
    let mut numbered = Vec::new(alloc);
    for (multiplier, source) in parts {
        if let Source::Literal(atom) = source {
            numbered.push((*multiplier, *atom))?;
        }
    }
    Ok(numbered)
}

// A literal of these is false, or the numbered atom is true.
fn cut_clause(alloc: Global, used: &[Used], number: u32) -> Result<Clause, AllocError>
    ensures { IfOk result (λ c. clause_view c ≡ map denied_by used.now ++ OfAtom number true ∷ []) }
{
    let mut clause = clause_of(alloc, used)?;
    clause.literals.push(Literal::Atom(number, true))?;
    Ok(clause)
}

// The sum of the cut's line, which is behind those of so many bounds, with the opposite of its atom.
fn closing(alloc: Global, count: u32) -> Result<Line, AllocError>
    requires { count < 2 ^ 32 - 1 }
    ensures { IfOk result (λ l. line_view l ≡ closing_line count) }
{
    let line = Source::Line(count + 1);
    let opposite = Source::Literal(count + 1);
    let parts = vec![in alloc; (1, line), (1, opposite)]?;
    Ok(Line { parts, divisor: 1 })
}

// The step that a literal of these is false or the numbered atom true.
fn cutting_step(
    alloc: Global,
    used: &[Used],
    divisor: i128,
    number: u32,
) -> Result<Step, AllocError>
    requires { length used.now < 2 ^ 32 - 1 }
    ensures { IfOk result (λ s. step_view s ≡ cut_move number used.now divisor) }
{
    let clause = cut_clause(alloc, used, number)?;
    let mut lines = own_lines(alloc, used)?;
    lines.push(sum_line(alloc, used, divisor)?)?;
    lines.push(closing(alloc, used.len() as u32)?)?;
    Ok(Step::Theory { clause, lines })
}

/// The step of a cut whose atom is to have this number: a literal whose bound the line uses is false, or the
/// atom is true. An atom without a term is none to be added, and one of the literals is false then.
///
/// The line names each bound by the number of its atom. The answer is want of memory also where what is used
/// can't be numbered by 32 bits.
pub fn cut_step(
    alloc: Global,
    search: &Search,
    meanings: &[Meaning],
    cut: &Cut,
    number: u32,
) -> Result<Step, AllocError>
    requires { length meanings.now < 2 ^ 32 }
    ensures { IfOk result (λ s. step_view s ≡ move_of_cut number (atom_view cut.now.atom).terms
        (used_in search.now.trail meanings.now (line_view cut.now.line)) cut.now.line.divisor) }
{
    let parts = numbered(alloc, &cut.line.parts)?;
    let used = uses(alloc, search, meanings, &parts)?;
    if used.len() as u64 >= u32::MAX as u64 {
        return Err(AllocError);
    }
    if cut.atom.terms.as_slice().is_empty() {
        return refuting_step(alloc, &used);
    }
    cutting_step(alloc, &used, cut.line.divisor, number)
}

/// Adds the step of a cut, and its atom, whose sum has this column, behind the others. An atom without a term is
/// none: the step then is that bounds refute each other.
pub fn add_cut(
    alloc: Global,
    record: &mut Record,
    atoms: &mut Vec<Atom>,
    meanings: &mut Vec<Meaning>,
    cut: Cut,
    column: u32,
) -> Result<(), SolveFault> {
    let number = next_number(meanings)?;
    let step = cut_step(alloc, &record.search, meanings, &cut, number)?;
    add(alloc, record, step)?;
    if cut.atom.terms.as_slice().is_empty() {
        return Ok(());
    }
    let meaning = meaning_over(&cut.atom, column);
    add_neighbours(alloc, record, meanings, meaning, number)?;
    atoms.push(cut.atom)?;
    meanings.push(meaning)?;
    Ok(())
}
