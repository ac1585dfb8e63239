//! The rows that define the sums of atoms, and the tableau that is made of them.

ghost use Rattle.std.specs.Prelude.{◌≡◌, ◌+◌, ◌<◌, ◌^◌, ◌++◌, ◌∷◌, [], cond, map, length, IfOk};
ghost use lib.IntN.{negsuc};
ghost use Rattle.proof_steps.specs.View.{atom_view, row_view};
ghost use Rattle.proof_steps.specs.Rows.{is_long, defining_rows, rows_of, columns_of};
ghost use Rattle.cnf_maker.specs.Plain.{IsPlain};
ghost use Rattle.cnf_maker.specs.View.{AreFew, form_view};
ghost use Rattle.int_simplex.specs.Answers.{IsNew};
ghost use Rattle.smt_solver.specs.Sums.{own_row};

use crate::fault::SolveFault;
use cnf_maker::Cnf;
use int_simplex::Tableau;
use proof_steps::Atom;
use std::alloc::{AllocError, Global};

/// Whether the atom has more than one variable, and so a row.
pub fn has_row(atom: &Atom) -> bool
    ensures { result ≡ is_long (atom_view atom.now).terms }
{
    atom.terms.as_slice().len() > 1
}

/// The column that is free behind the atom's own.
pub fn next_column(atom: &Atom, column: u32) -> Result<u32, AllocError>
    ensures exact { IfOk result (λ n. n ≡ cond (is_long (atom_view atom.now).terms) (column + 1) column) }
    ensures few { IfOk result (λ n. n < 2 ^ 32) }
{
    if !has_row(atom) {
        return Ok(column);
    }
    match column.checked_add(1) {
        Some(next) => Ok(next),
        None => Err(AllocError),
    }
}

// The atom's terms, and -1 in a column of its own.
fn row_of(alloc: Global, atom: &Atom, column: u32) -> Result<Vec<(u32, i128)>, AllocError>
    ensures { IfOk result (λ v. row_view v ≡ (atom_view atom.now).terms ++ (column, negsuc 0) ∷ []) }
{
    let mut row = Vec::from_slice(alloc, atom.terms.as_slice())?;
    row.push((column, -1))?;
    Ok(row)
}

// The atom's row, if it has one.
fn push_row(
    alloc: Global,
    rows: &mut Vec<Vec<(u32, i128)>>,
    atom: &Atom,
    column: u32,
) -> Result<(), AllocError>
    ensures { IfOk result (λ _. map row_view rows.new.items
        ≡ map row_view rows.old.items ++ own_row column (atom_view atom.now)) }
{
    if has_row(atom) {
        rows.push(row_of(alloc, atom, column)?)?;
    }
    Ok(())
}

/// The defining rows of the atoms in their order, the first one with this column as its own.
///
/// The answer is want of memory also where columns can't be numbered by 32 bits.
pub fn rows(alloc: Global, atoms: &[Atom], first: u32) -> Result<Vec<Vec<(u32, i128)>>, AllocError>
    ensures exact { IfOk result (λ v. map row_view v.items ≡ defining_rows first (map atom_view atoms.now)) }
    ensures few { IfOk result (λ v. first + length v.items < 2 ^ 32) }
{
    let mut rows = Vec::new(alloc);
    let mut column = first;
    for atom in atoms {
        push_row(alloc, &mut rows, atom, column)?;
        column = next_column(atom, column)?;
    }
    Ok(rows)
}

/// The tableau of a form: its columns are the variables, and after these the sums of the atoms with
/// more than one variable.
pub fn tableau(alloc: Global, cnf: &Cnf) -> Result<Tableau, SolveFault>
    requires few { AreFew (form_view cnf.now) }
    requires plain { IsPlain (form_view cnf.now) }
    ensures { IfOk result (λ t. IsNew t (rows_of (form_view cnf.now)) (columns_of (form_view cnf.now))) }
{
    let first = cnf.shapes.len() as u32;
    let rows = rows(alloc, &cnf.atoms, first)?;
    let columns = first + rows.len() as u32;
    Ok(Tableau::new(alloc, &rows, columns)?)
}
