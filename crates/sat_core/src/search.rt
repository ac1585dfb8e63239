ghost use Rattle.std.specs.Prelude.{◌≡◌, ◌⊎◌, ◌++◌, ◌∷◌, ◌<◌, ◌≤◌, ◌^◌, [], OnOk, OnErr, IfOk, IsTrue, true, false, map, length, take, option_to_list, vec_len, vec_capacity, List, ℕ};
ghost use Rattle.proof_steps.specs.View.{clause_view, step_view};
ghost use Rattle.sat_core.specs.Shown.{Begins, IsAsBefore, Adds, Learns, Finds, IsWatchedPair, IsTold, learnt_count};
ghost use Rattle.sat_core.specs.Looking.{LooksAtHints, LooksAtHolders, LooksAtWork};
ghost use Rattle.sat_core.specs.Trail.{value_of};
ghost use Rattle.cnf_maker.specs.View.{form_view};
ghost use Rattle.proof_steps.specs.declared.Literal.{Literal as SignedLiteral};
ghost use Rattle.sat_core.specs.Watching.{Watching};
ghost use Rattle.sat_core.specs.Waiting.{IsReady, waiting_entry};
ghost use Rattle.sat_core.specs.Analysis.{IsDecisionAt};

use crate::analysis::{Analysis, analysed};
use crate::answer::{Answer, MOST, answered};
use crate::assigned::Assigned;
use crate::assignment::Assignment;
use crate::derived::append;
use crate::found::{Found, SearchFault};
use crate::order::Order;
use crate::placing::{Placing, placed};
use crate::set::LiteralSet;
use crate::store::{ClauseStore, Looks};
use crate::trail::Trail;
use crate::variables::{add_atoms, admit, admit_all, flags_of};
use crate::watches::Watches;
use cnf_maker::Cnf;
use proof_steps::{Clause, Literal, Step};
use std::alloc::Global;
use std::marker::Model;

/// A search over the clauses of a query and those that are added and learnt.
#[derive(Drop)]
pub struct Search {
    clauses: ClauseStore,
    looks: Looks,
    log: Vec<Step>,
    variables: Vec<Literal>,
    assignment: Assignment,
    watches: Watches,
    head: usize,
    waiting: Vec<Assigned>,
    stuck: Option<u32>,
    order: Order,
    marked: LiteralSet,
    in_conflict: bool,
    conflict: u32,
    ended: bool,
}

impl Model for Search {
    ghost use Rattle.std.specs.Prelude.{map};
    ghost use Rattle.proof_steps.specs.View.{clause_view, step_view};
    ghost use Rattle.sat_core.specs.Shown.{Shown};
    ghost use Rattle.sat_core.specs.Held.{IsHeld};
    ghost use Rattle.sat_core.specs.Waiting.{IsReady};

    ghost Value = { Shown };

    ghost view = { λ s. record {
      known = s.clauses;
      log = map step_view s.log.items;
      variables = s.variables.items;
      trail = s.assignment;
      in_conflict = s.in_conflict;
      looks = s.looks;
      watched = s.watches.pairs;
    } };

    ghost invariant = { λ s.
        IsHeld s.clauses (map step_view s.log.items) s.variables.items s.assignment
        s.in_conflict s.conflict s.ended
        × IsReady s.clauses s.assignment s.watches s.head s.waiting.items s.stuck };
}

/// Leaves the entries before a decision alone, or all. After a cut all lists were gone through, nothing
/// waits, and no clause is known to be false.
fn cut_to(
    assignment: &mut Assignment,
    head: &mut usize,
    order: &mut Order,
    waiting: &mut Vec<Assigned>,
    stuck: &mut Option<u32>,
    back: usize,
)
    requires within { back ≤ length assignment.old }
    requires decided { (back ≡ length assignment.old) ⊎ IsDecisionAt assignment.old back }
    ensures cut { assignment.new ≡ take back assignment.old }
    ensures length { vec_len waiting.new ≤ vec_len waiting.old }
    ensures capacity { vec_capacity waiting.new ≡ vec_capacity waiting.old }
    ensures ready { (known : List (List SignedLiteral)) (w : Watching)
        → IsReady known assignment.old w head.old waiting.old.items stuck.old
        → IsReady known assignment.new w head.new waiting.new.items stuck.new }
{
    if back < assignment.entries().len() {
        order.undo_from(assignment.entries(), back);
        assignment.cut(back);
        waiting.clear();
        *head = back;
        *stuck = None;
    }
}

/// Lets a clause of two watched literals wait for the first of them, if it is to.
fn wait_for(
    waiting: &mut Vec<Assigned>,
    watched: Option<(Literal, Literal)>,
    waits: bool,
    number: u32,
)
    requires room { vec_len waiting.old < vec_capacity waiting.old }
    ensures { waiting.new.items ≡ waiting.old.items ++ option_to_list (waiting_entry watched waits number) }
{
    if let Some((literal, _)) = watched {
        if waits {
            waiting.push_reserved(Assigned {
                literal,
                reason: number,
            });
        }
    }
}

/// How much stays after a conflict: where the search begins anew, what comes before the first
/// decision.
fn back_or_anew(trail: Trail<'_>, back: usize, anew: bool) -> usize
    requires { back ≤ length trail.entries.now }
    ensures less { result ≤ back }
    ensures decided { (result ≡ back) ⊎ IsDecisionAt trail.entry.entries.now result }
{
    if anew {
        trail.next_decision(0, back)
    } else {
        back
    }
}

/// Whether all that became false before a place stays.
fn stays(low: usize, back: usize) -> bool
    ensures yes { result ≡ true → low ≤ back }
    ensures no { result ≡ false → back < low }
{
    low <= back
}

impl Search {
    /// A search over the clauses of a query, in which nothing is assigned.
    pub fn new(alloc: Global, cnf: &Cnf) -> Result<Search, SearchFault>
        requires clauses { length cnf.now.clauses.items < 2 ^ 32 }
        requires atoms { length cnf.now.atoms.items < 2 ^ 32 }
        requires shapes { length cnf.now.shapes.items < 2 ^ 32 }
        ensures { IfOk result (Begins (form_view cnf.now)) }
    {
        let mut variables = flags_of(alloc, &cnf.shapes)?;
        add_atoms(&mut variables, &cnf.atoms)?;
        let mut order = Order::new(alloc);
        order.grow(&variables)?;
        let mut clauses = ClauseStore::new(alloc);
        let mut watches = Watches::new(alloc);
        admit_all(
            alloc,
            &mut clauses,
            &mut watches,
            &mut variables,
            &order,
            &cnf.clauses,
        )?;
        let looks = Looks::new();
        let log = Vec::new(alloc);
        let assignment = Assignment::new(alloc);
        let waiting = Vec::new(alloc);
        let marked = LiteralSet::new(alloc);
        Ok(Search {
            clauses,
            looks,
            log,
            variables,
            assignment,
            watches,
            head: 0,
            waiting,
            stuck: None,
            order,
            marked,
            in_conflict: false,
            conflict: 0,
            ended: false,
        })
    }

    /// The steps that were derived, in order: what was learnt, and the empty clause.
    pub fn log(&self) -> &[Step]
        ensures { map step_view result.now ≡ self.now.log }
    {
        &self.log
    }

    /// How many clauses were learnt.
    pub fn conflicts(&self) -> u64
        ensures { result ≡ learnt_count self.now.log }
    {
        if self.ended {
            self.log.len() as u64 - 1
        } else {
            self.log.len() as u64
        }
    }

    /// The truth of a literal, if its variable has a value.
    pub fn value(&self, literal: Literal) -> Option<bool>
        ensures { result ≡ value_of self.now.trail literal }
    {
        self.assignment.value(literal)
    }

    /// How often a clause was looked at; at the last number of 64 bits no more are counted.
    pub fn looks(&self) -> u64
        ensures { result ≡ self.now.looks }
    {
        self.looks.count()
    }

    /// Two different literals of a clause that it watches; none exactly where no clause has the number,
    /// or where it has no two different literals. After `Full`, where one of the two is false the other
    /// is true.
    pub fn watches(&self, clause: u32) -> Option<(Literal, Literal)>
        ensures pair { IsWatchedPair self.now.known clause result }
        ensures told { IsTold self.now.watched clause result }
    {
        self.watches.pair(clause)
    }

    /// Lets the literal's variable be decided to its side next time, and sooner, as far as that is open. Nothing that
    /// is known changes.
    pub fn prefer(&mut self, literal: Literal)
        ensures { self.new ≡ self.old }
    {
        self.order.prefer(literal);
    }

    /// Adds a clause; the trail is cut at the first decision before which it would be false or unit.
    pub fn add(&mut self, alloc: Global, clause: &Clause) -> Result<(), SearchFault>
        ensures ok { OnOk result (Adds self.old self.new (clause_view clause.now)) }
        ensures err { OnErr result (IsAsBefore self.old self.new) }
    {
        if self.clauses.len() >= MOST {
            return Err(SearchFault::Memory);
        }
        let literals = clause.literals.as_slice();
        let Placing {
            watched,
            low,
            waits,
        } = placed(&self.assignment, literals, &mut self.marked)?;
        self.waiting.reserve(1)?;
        let number = self.clauses.len() as u32 + 1;
        admit(
            alloc,
            &mut self.clauses,
            &mut self.watches,
            &mut self.variables,
            &self.order,
            clause,
            watched,
        )?;
        let trail = self.assignment.trail();
        let back = trail.next_decision(low, trail.entries.len());
        cut_to(
            &mut self.assignment,
            &mut self.head,
            &mut self.order,
            &mut self.waiting,
            &mut self.stuck,
            back,
        );
        wait_for(&mut self.waiting, watched, waits, number);
        self.in_conflict = false;
        Ok(())
    }

    /// Adds the clause of the last conflict's cause to what is known. Looks at each clause that its hints
    /// name, and at fewer others than it has literals.
    pub fn learn(&mut self, alloc: Global) -> Result<(), SearchFault>
        requires { self.old.in_conflict ≡ true }
        ensures ok { OnOk result (Learns self.old self.new) }
        ensures looks { OnOk result (LooksAtHints self.old self.new) }
        ensures err { OnErr result (IsAsBefore self.old self.new) }
    {
        if self.clauses.len() >= MOST {
            return Err(SearchFault::Memory);
        }
        self.waiting.reserve(1)?;
        let number = self.clauses.len() as u32 + 1;
        let looks = &mut self.looks;
        let trail = self.assignment.trail();
        let Analysis {
            clause,
            hints,
            back,
            low,
            watched,
        } = analysed(
            alloc,
            &self.clauses,
            looks,
            trail,
            &mut self.marked,
            self.conflict,
        )?;
        append(
            alloc,
            &mut self.clauses,
            &mut self.watches,
            &mut self.log,
            clause,
            hints,
            watched,
        )?;
        let back = back_or_anew(trail, back, self.order.restarts());
        self.order.bump_all(self.marked.as_slice());
        cut_to(
            &mut self.assignment,
            &mut self.head,
            &mut self.order,
            &mut self.waiting,
            &mut self.stuck,
            back,
        );
        let waits = stays(low, back);
        wait_for(&mut self.waiting, watched, waits, number);
        self.in_conflict = false;
        Ok(())
    }

    /// Goes on with what is assigned until every variable has a value, or a clause is false. For each
    /// literal that becomes false looks at no more clauses than hold it, and at least once for each
    /// literal that a clause implies, each clause that comes to watch others, and a false clause, where
    /// these clauses had more than one literal left.
    pub fn decide_or_conflict(&mut self, alloc: Global) -> Result<Found, SearchFault>
        ensures ok { IfOk result (λ f. Finds self.old self.new f) }
        ensures looks { IfOk result (λ f. LooksAtHolders self.old self.new) }
        ensures work { IfOk result (λ f. LooksAtWork self.old self.new) }
        ensures err { OnErr result (IsAsBefore self.old self.new) }
    {
        let before = self.assignment.entries().len();
        let mut head = self.head;
        match answered(
            alloc,
            &mut self.clauses,
            &mut self.looks,
            &self.variables,
            &mut self.watches,
            &mut self.log,
            &mut self.assignment,
            &mut head,
            &mut self.order,
            &self.waiting,
            self.stuck,
            self.ended,
        ) {
            Err(fault) => {
                self.order.undo_from(self.assignment.entries(), before);
                self.assignment.cut(before);
                Err(SearchFault::Memory)
            }
            Ok(Answer::Full) => {
                self.head = head;
                self.waiting.clear();
                self.stuck = None;
                self.in_conflict = false;
                Ok(Found::Full)
            }
            Ok(Answer::Conflict(number)) => {
                self.head = head;
                self.waiting.clear();
                self.stuck = Some(number);
                self.conflict = number;
                self.in_conflict = true;
                Ok(Found::Conflict)
            }
            Ok(Answer::Empty(number)) => {
                self.head = head;
                self.waiting.clear();
                self.stuck = Some(number);
                self.ended = true;
                self.in_conflict = false;
                Ok(Found::Empty)
            }
        }
    }
}
