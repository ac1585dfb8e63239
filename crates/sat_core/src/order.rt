//! Which variable is decided next, and to which side: the most active one that has no value, to the
//! side that it had last, after Moskewicz and others, "Chaff", 2001, and Pipatsrisawat and Darwiche,
//! "A lightweight component caching scheme for satisfiability solvers", 2007.
//!
//! Nothing rests on what is kept here: a variable that is left out is found by going through all.

ghost use Rattle.sat_core.specs.Propagation.{IsSide};

use crate::analysis::opposite;
use crate::assigned::Assigned;
use crate::set::place;
use proof_steps::Literal;
use std::alloc::{AllocError, Global};

/// Past this activity all are made smaller.
const MOST_ACTIVE: u64 = 1 << 56;
/// So many conflicts make the unit of the restarts.
const UNIT: u64 = 100;

/// The variables by their places in the list of all.
#[derive(Drop)]
pub struct Order {
    /// How often the variable was in a conflict of late.
    activities: Vec<u64>,
    /// The side that it had last.
    phases: Vec<bool>,
    /// A heap of variables, the most active one first.
    heap: Vec<u32>,
    /// One more than the variable's place in the heap, or 0.
    spots: Vec<u32>,
    /// One more than the variable's place in the list, by half its literal's place, or 0.
    slots: Vec<u32>,
    /// What a conflict adds to an activity.
    step: u64,
    /// Conflicts until the next restart.
    left: u64,
    /// The two numbers of Knuth's sequence of restarts.
    turn: u64,
    span: u64,
}

fn number_at(numbers: &[u32], place: usize) -> usize {
    match numbers.get(place) {
        Some(number) => *number as usize,
        None => 0,
    }
}

fn activity_at(activities: &[u64], place: usize) -> u64 {
    match activities.get(place) {
        Some(activity) => *activity,
        None => 0,
    }
}

fn write(numbers: &mut Vec<u32>, place: usize, number: usize) {
    if place < numbers.len() && number < 4_294_967_295 {
        numbers[place] = number as u32;
    }
}

impl Order {
    /// No variables.
    pub fn new(alloc: Global) -> Order {
        Order {
            activities: Vec::new(alloc),
            phases: Vec::new(alloc),
            heap: Vec::new(alloc),
            spots: Vec::new(alloc),
            slots: Vec::new(alloc),
            step: 1 << 10,
            left: UNIT,
            turn: 1,
            span: 1,
        }
    }

    /// The variable's place in the list, if it is known here.
    pub fn slot(&self, literal: Literal) -> Option<usize> {
        match number_at(&self.slots, place(literal) / 2) {
            0 => None,
            more => Some(more - 1),
        }
    }

    fn is_above(&self, left: usize, right: usize) -> bool {
        activity_at(&self.activities, left) > activity_at(&self.activities, right)
    }

    /// Puts a variable at a place of the heap.
    fn put(&mut self, at: usize, variable: usize) {
        write(&mut self.heap, at, variable);
        write(&mut self.spots, variable, at.saturating_add(1));
    }

    /// Lets the variable at a place rise to where it belongs.
    fn rise(&mut self, from: usize) {
        let variable = number_at(&self.heap, from);
        let activity = activity_at(&self.activities, variable);
        let mut at = from;
        for _ in 0..64 {
            if at == 0 {
                break;
            }
            let above = (at - 1) / 2;
            let other = number_at(&self.heap, above);
            if activity <= activity_at(&self.activities, other) {
                break;
            }
            self.put(at, other);
            at = above;
        }
        self.put(at, variable);
    }

    /// The more active of the two places below one.
    fn lower(&self, at: usize) -> usize {
        let left = at.saturating_mul(2).saturating_add(1);
        let right = left.saturating_add(1);
        if right < self.heap.len()
            && self.is_above(number_at(&self.heap, right), number_at(&self.heap, left))
        {
            right
        } else {
            left
        }
    }

    /// Lets the variable at a place sink to where it belongs.
    fn sink(&mut self, from: usize) {
        let variable = number_at(&self.heap, from);
        let activity = activity_at(&self.activities, variable);
        let mut at = from;
        for _ in 0..64 {
            let next = self.lower(at);
            let other = number_at(&self.heap, next);
            if next >= self.heap.len() || activity_at(&self.activities, other) <= activity {
                break;
            }
            self.put(at, other);
            at = next;
        }
        self.put(at, variable);
    }

    /// How many variables wait in the heap.
    pub fn len(&self) -> usize {
        self.heap.len()
    }

    /// Takes the most active variable out of the heap.
    pub fn pop(&mut self) -> Option<usize> {
        let first = number_at(&self.heap, 0);
        match self.heap.pop() {
            Some(last) => {
                write(&mut self.spots, first, 0);
                if self.heap.len() > 0 {
                    self.put(0, last as usize);
                    self.sink(0);
                }
                Some(first)
            }
            None => None,
        }
    }

    /// Puts a variable into the heap, if it is not there; where memory is short it stays out.
    fn insert(&mut self, variable: usize) {
        if number_at(&self.spots, variable) != 0 || variable >= self.activities.len() {
            return;
        }
        let at = self.heap.len();
        if self.heap.push(0).is_ok() {
            self.put(at, variable);
            self.rise(at);
        }
    }

    fn add(&mut self, variable: usize, literal: Literal) -> Result<(), AllocError> {
        let slot = place(literal) / 2;
        while self.slots.len() <= slot {
            self.slots.push(0)?;
        }
        self.activities.push(0)?;
        self.phases.push(false)?;
        self.spots.push(0)?;
        write(&mut self.slots, slot, variable.saturating_add(1));
        self.insert(variable);
        Ok(())
    }

    /// Takes in the variables that are new at the end of the list.
    pub fn grow(&mut self, variables: &[Literal]) -> Result<(), AllocError> {
        for variable in self.spots.len()..variables.len() {
            self.add(variable, variables[variable])?;
        }
        Ok(())
    }

    /// Keeps the literal's sign as the side of its variable.
    fn turn_to(&mut self, literal: Literal) {
        let (Literal::Flag(_, positive) | Literal::Atom(_, positive)) = literal;
        if let Some(variable) = self.slot(literal) {
            if variable < self.phases.len() {
                self.phases[variable] = positive;
            }
        }
    }

    /// Keeps the side of an entry that is undone, and lets its variable wait again.
    fn undo(&mut self, literal: Literal) {
        self.turn_to(literal);
        if let Some(variable) = self.slot(literal) {
            self.insert(variable);
        }
    }

    /// Keeps the sides of the entries from a place on, which are undone.
    pub fn undo_from(&mut self, entries: &[Assigned], from: usize) {
        for i in from..entries.len() {
            self.undo(entries[i].literal);
        }
    }

    /// The literal or its opposite, as the variable stood last.
    pub fn side(&self, literal: Literal) -> Literal
        ensures { IsSide literal result }
    {
        match self.slot(literal) {
            Some(variable) => match self.phases.get(variable) {
                Some(true) => literal,
                _ => opposite(literal),
            },
            None => opposite(literal),
        }
    }

    fn lessen(&mut self) {
        for i in 0..self.activities.len() {
            self.activities[i] = self.activities[i] >> 40;
        }
        self.step = (self.step >> 40).max(1);
    }

    /// Makes a variable more active.
    fn bump(&mut self, literal: Literal) {
        if let Some(variable) = self.slot(literal) {
            if variable < self.activities.len() {
                self.activities[variable] = self.activities[variable].saturating_add(self.step);
                if self.activities[variable] > MOST_ACTIVE {
                    self.lessen();
                }
            }
            let spot = number_at(&self.spots, variable);
            if spot > 0 {
                self.rise(spot - 1);
            }
        }
    }

    /// Keeps the literal's sign as the side of its variable, and makes that more active.
    pub fn prefer(&mut self, literal: Literal) {
        self.turn_to(literal);
        self.bump(literal);
    }

    /// Makes the variables of a conflict more active than those of the ones before it.
    pub fn bump_all(&mut self, literals: &[Literal]) {
        for literal in literals {
            self.bump(*literal);
        }
        self.step = self.step.saturating_add(self.step / 20);
    }

    /// Counts a conflict, and says whether the search begins anew: after 1, 1, 2, 1, 1, 2, 4, ..
    /// times the unit of conflicts, after Luby and others, "Optimal speedup of Las Vegas algorithms",
    /// 1993, by Knuth's two numbers.
    pub fn restarts(&mut self) -> bool {
        if self.left > 1 {
            self.left -= 1;
            return false;
        }
        let lowest = self.turn & self.turn.wrapping_neg();
        if lowest == self.span {
            self.turn = self.turn.wrapping_add(1);
            self.span = 1;
        } else {
            self.span = self.span.wrapping_mul(2);
        }
        self.left = UNIT.saturating_mul(self.span);
        true
    }
}
