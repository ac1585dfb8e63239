//! A solver at work on a query with its numbers.

ghost use Rattle.std.specs.Prelude.{◌≡◌, [], IfOk};
ghost use Rattle.cnf_maker.specs.Plain.{IsPlain, IsSmall};
ghost use Rattle.cnf_maker.specs.View.{AreFew, form_view};
ghost use Rattle.smt_solver.specs.Kept.{IsKept, solver_view};
ghost use Rattle.smt_solver.specs.Run.{AreFit};

use crate::fault::SolveFault;
use crate::numbers::meanings::{Meaning, meanings};
use crate::numbers::order::take_orders;
use crate::numbers::rows::tableau;
use crate::work::{Work, begun};
use cnf_maker::Cnf;
use int_simplex::Tableau;
use std::alloc::Global;

/// Work on a query's form, to which the atoms of splits come; the tableau of its rows; what its atoms
/// mean; and the splits.
#[derive(Drop)]
pub struct Solver {
    pub work: Work,
    pub tableau: Tableau,
    pub meanings: Vec<Meaning>,
    pub pairs: Vec<(u32, i128)>,
}

/// A solver of a form of which nothing is done.
pub fn prepared(alloc: Global, cnf: Cnf) -> Result<Solver, SolveFault>
    requires few { AreFew (form_view cnf) }
    requires fit { AreFit (form_view cnf) (form_view cnf).clauses }
    requires plain { IsPlain (form_view cnf) }
    requires small { IsSmall (form_view cnf) }
    ensures kept { IfOk result (λ s. IsKept (form_view cnf) (solver_view s)) }
    ensures none { IfOk result (λ s. (solver_view s).work.listed ≡ []) }
    ensures pairs { IfOk result (λ s. (solver_view s).pairs ≡ []) }
{
    let tableau = tableau(alloc, &cnf)?;
    let meanings = meanings(alloc, &cnf.atoms, cnf.shapes.len() as u32)?;
    let work = begun(alloc, cnf)?;
    Ok(Solver {
        work,
        tableau,
        meanings,
        pairs: Vec::new(alloc),
    })
}

/// The same with steps that say how the limits of one sum are ordered.
pub fn ordered(alloc: Global, cnf: Cnf) -> Result<Solver, SolveFault>
    requires few { AreFew (form_view cnf) }
    requires fit { AreFit (form_view cnf) (form_view cnf).clauses }
    requires plain { IsPlain (form_view cnf) }
    requires small { IsSmall (form_view cnf) }
    ensures kept { IfOk result (λ s. IsKept (form_view cnf) (solver_view s)) }
    ensures none { IfOk result (λ s. (solver_view s).work.listed ≡ []) }
    ensures pairs { IfOk result (λ s. (solver_view s).pairs ≡ []) }
{
    let mut solver = prepared(alloc, cnf)?;
    take_orders(alloc, &mut solver.work)?;
    Ok(solver)
}
