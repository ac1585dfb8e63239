//! Logs of searches to which clauses are added.

use crate::trial::{clause_of, copied, search_of, searched};
use anyhow::Result;
use cnf_maker::Cnf;
use proof_checker::{Fault, check};
use proof_steps::{Clause, Step};
use sat_core::{Found, Search};
use std::alloc::Global;

/// The clauses of a search in the order of their numbers, and how many steps of its log are among them.
#[derive(Drop)]
pub struct Followed {
    clauses: Vec<Clause>,
    steps: usize,
}

/// Whether the checker takes a step over these clauses.
fn is_taken(alloc: Global, form: &Cnf, clauses: &[Clause], step: &[Step]) -> Result<bool> {
    let proof = copied(alloc, step)?;
    Ok(
        match check(alloc, &form.shapes, &form.atoms, clauses, &proof) {
            Ok(_) | Err(Fault::Open) => true,
            Err(_) => false,
        },
    )
}

impl Followed {
    /// The clauses of a form, before anything is added or learnt.
    pub fn new(alloc: Global, form: &Cnf) -> Result<Followed> {
        let mut clauses = Vec::new(alloc);
        for clause in &form.clauses {
            clauses.push(clause.copied(alloc)?)?;
        }
        Ok(Followed { clauses, steps: 0 })
    }

    /// Takes a clause that was added.
    pub fn add(&mut self, alloc: Global, clause: &Clause) -> Result<()> {
        self.clauses.push(clause.copied(alloc)?)?;
        Ok(())
    }

    /// Whether the checker takes the next step of a log over the clauses with the numbers before it.
    fn follow_step(&mut self, alloc: Global, form: &Cnf, step: &[Step]) -> Result<bool> {
        let taken = is_taken(alloc, form, &self.clauses, step)?;
        for step in step {
            self.add(alloc, clause_of(step))?;
        }
        self.steps = self.steps.saturating_add(1);
        Ok(taken)
    }

    /// Whether it takes all that came to the log since.
    pub fn follow(&mut self, alloc: Global, form: &Cnf, search: &Search) -> Result<bool> {
        let log = search.log();
        for step in self.steps..log.len() {
            if !self.follow_step(alloc, form, &log[step..step + 1])? {
                return Ok(false);
            }
        }
        Ok(true)
    }
}

/// A search over a form, with its clauses as they are numbered.
#[derive(Drop)]
pub struct Extended {
    pub search: Search,
    numbered: Followed,
}

impl Extended {
    /// A search that has not begun.
    pub fn new(alloc: Global, form: &Cnf) -> Result<Extended> {
        Ok(Extended {
            search: search_of(alloc, form)?,
            numbered: Followed::new(alloc, form)?,
        })
    }

    /// Adds a clause to the search.
    pub fn add(&mut self, alloc: Global, clause: &Clause) -> Result<()> {
        self.search.add(alloc, clause)?;
        self.numbered.add(alloc, clause)
    }

    /// The answer of the search; none where the checker refuses a step of its log.
    pub fn answer(&mut self, alloc: Global, form: &Cnf) -> Result<Option<Found>> {
        let found = searched(alloc, &mut self.search)?;
        if self.numbered.follow(alloc, form, &self.search)? {
            Ok(Some(found))
        } else {
            Ok(None)
        }
    }
}
