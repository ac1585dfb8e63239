//! The clauses by their numbers, which are read only where the look is counted.

ghost use Rattle.std.specs.Prelude.{◌≡◌, ◌++◌, ◌∷◌, ◌<◌, ◌≤◌, [], Some, OnOk, OnErr, length, take, ◌-◌};
ghost use Rattle.proof_steps.specs.View.{clause_view};
ghost use Rattle.proof_steps.specs.Meaning.{at};
ghost use Rattle.sat_core.specs.Store.{IsLooked};

use proof_steps::Clause;
use std::alloc::{AllocError, Global};
use std::marker::Model;

/// How often clauses were looked at; it can't be copied.
#[derive(Drop)]
pub struct Looks {
    count: u64,
}

impl Model for Looks {
    ghost use Rattle.std.specs.Prelude.{ℕ};

    ghost Value = { ℕ };

    ghost view = { λ s. s.count };
}

impl Looks {
    /// None so far.
    pub fn new() -> Looks
        ensures { result ≡ 0 }
    {
        Looks { count: 0 }
    }

    /// How many they are; at the last number of 64 bits no more are counted.
    pub fn count(&self) -> u64
        ensures { result ≡ self.now }
    {
        self.count
    }

    /// Counts one more.
    fn raise(&mut self)
        ensures { IsLooked self.old self.new }
    {
        if self.count < 18_446_744_073_709_551_615 {
            self.count += 1;
        }
    }
}

/// Clauses by their numbers from 1, which can't be copied.
#[derive(Drop)]
pub struct ClauseStore {
    clauses: Vec<Clause>,
}

impl Model for ClauseStore {
    ghost use Rattle.std.specs.Prelude.{List, map};
    ghost use Rattle.proof_steps.specs.declared.Literal.{Literal as SignedLiteral};
    ghost use Rattle.proof_steps.specs.View.{clause_view};

    ghost Value = { List (List SignedLiteral) };

    ghost view = { λ s. map clause_view s.clauses.items };
}

impl ClauseStore {
    /// No clauses.
    pub fn new(alloc: Global) -> ClauseStore
        ensures { result ≡ [] }
    {
        ClauseStore {
            clauses: Vec::new(alloc),
        }
    }

    /// How many there are.
    pub fn len(&self) -> usize
        ensures { result ≡ length self.now }
    {
        self.clauses.len()
    }

    /// Keeps a clause more, under the next number.
    pub fn push(&mut self, clause: Clause) -> Result<(), AllocError>
        ensures ok { OnOk result (self.new ≡ self.old ++ clause_view clause ∷ []) }
        ensures err { OnErr result (self.new ≡ self.old) }
    {
        match self.clauses.push(clause) {
            Ok(()) => Ok(()),
            Err(_) => Err(AllocError),
        }
    }

    /// Lets the last clause go.
    pub fn pop(&mut self)
        ensures { self.new ≡ take (length self.old - 1) self.old }
    {
        let _clause = self.clauses.pop();
    }

    /// The clause of that number; nothing else reads one, and the look is counted.
    pub fn look(&self, looks: &mut Looks, number: u32) -> &Clause
        requires positive { 0 < number }
        requires within { number ≤ length self.now }
        ensures clause { at self.now number ≡ Some (clause_view result.now) }
        ensures looked { IsLooked looks.old looks.new }
    {
        looks.raise();
        &self.clauses[number as usize - 1]
    }
}
