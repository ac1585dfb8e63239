ghost use Rattle.std.specs.Prelude.{◌≡◌, ℕ, ◌++◌, ◌∷◌, ◌<◌, [], List, OnOk, OnErr, cond, take, true, false, vec_capacity, vec_len};
ghost use Rattle.proof_checker.specs.Derived.{has};
ghost use Rattle.sat_core.specs.Trail.{value_of, trues, falses, IsApart};
ghost use Rattle.sat_core.specs.Set.{IsTied};
ghost use Rattle.sat_core.specs.Decisions.{decisions_from};

use crate::analysis::opposite;
use crate::assigned::Assigned;
use crate::set::{is_marked, mark, widen};
use crate::trail::Trail;
use proof_steps::Literal;
use std::alloc::{AllocError, Global};
use std::marker::Model;

/// What is assigned, in order, with marks of the literals that are true and the places of the decisions.
#[derive(Drop)]
pub struct Assignment {
    marks: Vec<bool>,
    entries: Vec<Assigned>,
    decisions: Vec<usize>,
}

impl Model for Assignment {
    ghost use Rattle.std.specs.Prelude.{◌≡◌, List};
    ghost use Rattle.sat_core.specs.declared.assigned.Assigned.{Assigned as Entry};
    ghost use Rattle.sat_core.specs.Trail.{trues, IsApart};
    ghost use Rattle.sat_core.specs.Set.{IsTied};
    ghost use Rattle.sat_core.specs.Decisions.{decisions_from};

    ghost Value = { List Entry };

    ghost view = { λ s. s.entries.items };

    ghost invariant = { λ s. IsTied s.marks.items (trues s.entries.items) × IsApart s.entries.items
        × (s.decisions.items ≡ decisions_from 0 s.entries.items) };
}

/// Makes room for the place of one more decision, where there is one.
fn reserve_if(decisions: &mut Vec<usize>, decided: bool) -> Result<(), AllocError>
    ensures same { decisions.new.items ≡ decisions.old.items }
    ensures room { OnOk result (decided ≡ true → vec_len decisions.new < vec_capacity decisions.new) }
{
    if decided {
        decisions.reserve(1)?;
    }
    Ok(())
}

/// Adds the place of a decision, where there is one.
fn push_if(decisions: &mut Vec<usize>, decided: bool, place: usize)
    requires { decided ≡ true → vec_len decisions.old < vec_capacity decisions.old }
    ensures { decisions.new.items ≡ decisions.old.items ++ cond decided (place ∷ []) [] }
{
    if decided {
        decisions.push_reserved(place);
    }
}

/// Leaves out the place of the last decision, where one goes.
fn pop_if(decisions: &mut Vec<usize>, decided: bool)
    ensures { (places : List ℕ) (place : ℕ) → decisions.old.items ≡ places ++ cond decided (place ∷ []) []
        → decisions.new.items ≡ places }
{
    if decided {
        decisions.pop();
    }
}

/// Leaves the first entries alone.
fn cut_entries(
    marks: &mut Vec<bool>,
    entries: &mut Vec<Assigned>,
    decisions: &mut Vec<usize>,
    length: usize,
)
    requires tied { IsTied marks.old.items (trues entries.old.items) }
    requires apart { IsApart entries.old.items }
    requires places { decisions.old.items ≡ decisions_from 0 entries.old.items }
    ensures entries { entries.new.items ≡ take length entries.old.items }
    ensures tied { IsTied marks.new.items (trues entries.new.items) }
    ensures apart { IsApart entries.new.items }
    ensures places { decisions.new.items ≡ decisions_from 0 entries.new.items }
{
    while entries.len() > length {
        if let Some(entry) = entries.pop() {
            mark(marks, entry.literal, false);
            pop_if(decisions, entry.reason == 0);
        }
    }
}

impl Assignment {
    /// Nothing is assigned.
    pub fn new(alloc: Global) -> Assignment
        ensures { result ≡ [] }
    {
        Assignment {
            marks: Vec::new(alloc),
            entries: Vec::new(alloc),
            decisions: Vec::new(alloc),
        }
    }

    /// What is assigned, in order.
    pub fn entries(&self) -> &[Assigned]
        ensures entries { result.now ≡ self.now }
        ensures apart { IsApart self.now }
    {
        &self.entries
    }

    /// The same, with the places of the decisions.
    pub fn trail(&self) -> Trail<'_>
        ensures entries { result.entries.now ≡ self.now }
    {
        Trail {
            entries: &self.entries,
            decisions: &self.decisions,
        }
    }

    /// Whether the literal is true.
    pub fn is_true(&self, literal: Literal) -> bool
        ensures { result ≡ has (trues self.now) literal }
    {
        is_marked(&self.marks, literal)
    }

    /// Whether the literal is false.
    pub fn is_false(&self, literal: Literal) -> bool
        ensures { result ≡ has (falses self.now) literal }
    {
        self.is_true(opposite(literal))
    }

    /// The truth of a literal, if its variable has a value.
    pub fn value(&self, literal: Literal) -> Option<bool>
        ensures { result ≡ value_of self.now literal }
    {
        if self.is_true(literal) {
            Some(true)
        } else if self.is_true(opposite(literal)) {
            Some(false)
        } else {
            None
        }
    }

    /// Makes a literal true.
    pub fn push(&mut self, literal: Literal, reason: u32) -> Result<(), AllocError>
        requires not_true { has (trues self.old) literal ≡ false }
        requires not_false { has (falses self.old) literal ≡ false }
        ensures ok { OnOk result (self.new ≡ self.old ++ record { literal = literal; reason = reason } ∷ []) }
        ensures err { OnErr result (self.new ≡ self.old) }
    {
        let place = self.entries.len();
        reserve_if(&mut self.decisions, reason == 0)?;
        widen(&mut self.marks, literal)?;
        self.entries.push(Assigned { literal, reason })?;
        push_if(&mut self.decisions, reason == 0, place);
        mark(&mut self.marks, literal, true);
        Ok(())
    }

    /// Leaves the first ones alone.
    pub fn cut(&mut self, length: usize)
        ensures { self.new ≡ take length self.old }
    {
        cut_entries(
            &mut self.marks,
            &mut self.entries,
            &mut self.decisions,
            length,
        );
    }
}
