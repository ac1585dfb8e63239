//! The clause form of a query.

ghost use Rattle.std.specs.Prelude.{◌≡◌, IfOk, length, map};
ghost use Rattle.proof_steps.specs.View.{atom_view};
ghost use Rattle.sys_terms.specs.View.{query_view, term_view, terms_view};
ghost use Rattle.cnf_maker.specs.ClauseForm.{with_condition, with_conditions, truth_form, clause_form};
ghost use Rattle.cnf_maker.specs.View.{Makes, Reaches, AreFew, form_view, key_view, made};

use crate::cnf::Cnf;
use crate::fault::CnfFault;
use crate::linear::AtomKey;
use crate::maker::Maker;
use indexmap::IndexSet;
use kind_num::Shape;
use proof_steps::{Atom, Literal};
use smallvec::SmallVec;
use std::alloc::{AllocError, Global};
use sys_terms::{Query, Term};

/// The atom of an inequality.
fn atom_of(alloc: Global, key: &AtomKey) -> Result<Atom, AllocError>
    ensures { IfOk result (λ a. atom_view a ≡ key_view key.now) }
{
    let (terms, bound) = key;
    let terms = SmallVec::from_slice(alloc, terms)?;
    Ok(Atom {
        terms,
        bound: *bound,
    })
}

fn atoms_of(alloc: Global, keys: &[AtomKey]) -> Result<Vec<Atom>, AllocError>
    ensures { IfOk result (λ v. map atom_view v.items ≡ map key_view keys.now) }
{
    let mut atoms = Vec::with_capacity(alloc, keys.len())?;
    for key in keys {
        atoms.push(atom_of(alloc, key)?)?;
    }
    Ok(atoms)
}

impl Maker {
    /// The truth alone, after the query's own variables.
    fn start(alloc: Global, shapes: &[Shape], truth: u32) -> Result<Maker, AllocError>
        requires { truth ≡ length shapes.now }
        ensures { IfOk result (λ m. made m ≡ truth_form shapes.now) }
    {
        let mut shapes = Vec::from_slice(alloc, shapes)?;
        shapes.push(Shape::Flag)?;
        let mut maker = Maker {
            shapes,
            atoms: IndexSet::new(alloc),
            clauses: Vec::new(alloc),
        };
        maker.push(alloc, &[Literal::Flag(truth, true)])?;
        Ok(maker)
    }

    /// The literal of a condition, as a clause of its own.
    fn condition(&mut self, alloc: Global, truth: u32, condition: &Term) -> Result<(), CnfFault>
        ensures { Reaches (with_condition truth (made self.old) (term_view condition.now)) result (made self.new) }
    {
        let literal = self.literal(alloc, truth, condition)?;
        self.push(alloc, &[literal])?;
        Ok(())
    }

    fn conditions(&mut self, alloc: Global, truth: u32, conditions: &[Term]) -> Result<(), CnfFault>
        ensures { Reaches (with_conditions truth (made self.old) (terms_view conditions.now)) result (made self.new) }
    {
        for condition in conditions {
            self.condition(alloc, truth, condition)?;
        }
        Ok(())
    }

    fn finished(self, alloc: Global) -> Result<Cnf, AllocError>
        ensures { IfOk result (λ c. form_view c ≡ made self) }
    {
        let atoms = atoms_of(alloc, self.atoms.as_slice())?;
        Ok(Cnf {
            atoms,
            clauses: self.clauses,
            shapes: self.shapes,
        })
    }
}

/// The form, where each of its lists is shorter than 2^32.
fn few(cnf: Cnf) -> Result<Cnf, AllocError>
    ensures same { IfOk result (λ c. form_view c ≡ form_view cnf) }
    ensures few { IfOk result (λ c. AreFew (form_view c)) }
{
    let most = u32::MAX as usize;
    if cnf.shapes.len() > most || cnf.atoms.len() > most || cnf.clauses.len() > most {
        return Err(AllocError);
    }
    Ok(cnf)
}

/// The query in clause form.
///
/// The query's own variables keep their numbers; the first one after them is a flag, the truth. The
/// form's clauses are, in order, the truth alone, and for each condition those that its terms need
/// and its own literal alone. Where the conditions fit the query's shapes, its values meet them
/// exactly where they extend to values that satisfy the clauses.
///
/// It is `Past` exactly where a coefficient or a bound is outside 128 bits, which never comes where
/// each weight is at most 2^63, and `Memory` where memory runs out or a list would reach 2^32.
pub fn clauses(alloc: Global, query: &Query) -> Result<Cnf, CnfFault>
    ensures exact { Makes (clause_form (query_view query.now)) result }
    ensures few { IfOk result (λ c. AreFew (form_view c)) }
{
    let Ok(truth) = u32::try_from(query.shapes.len()) else {
        return Err(CnfFault::Memory);
    };
    let mut maker = Maker::start(alloc, &query.shapes, truth)?;
    maker.conditions(alloc, truth, &query.conditions)?;
    let cnf = maker.finished(alloc)?;
    Ok(few(cnf)?)
}
