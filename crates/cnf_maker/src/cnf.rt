//! Queries in clause form.

use kind_num::Shape;
use proof_steps::{Atom, Clause};

/// A query in clause form: its variables by their shapes, its atoms and its clauses. Flags and
/// variables are numbered from 0, atoms and clauses from 1.
#[derive(Drop)]
pub struct Cnf {
    pub atoms: Vec<Atom>,
    pub clauses: Vec<Clause>,
    pub shapes: Vec<Shape>,
}
