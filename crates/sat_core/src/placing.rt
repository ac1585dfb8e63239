//! How much of the trail an added clause leaves, and which of its literals it watches.

ghost use Rattle.std.specs.Prelude.{◌≡◌, ◌≤◌, All, Contains, IfOk, false, length, true};
ghost use Rattle.proof_checker.specs.Derived.{has};
ghost use Rattle.sat_core.specs.Trail.{falses, IsApart};
ghost use Rattle.sat_core.specs.Visiting.{CanStand};
ghost use Rattle.sat_core.specs.Analysis.{IsLow};
ghost use Rattle.sat_core.specs.Placing.{IsFirstOpen, IsPlaced};

use crate::analysis::{any_marked, below, paired};
use crate::assigned::Assigned;
use crate::assignment::Assignment;
use crate::set::LiteralSet;
use crate::visiting::replacement;
use proof_steps::Literal;
use std::alloc::AllocError;

/// The two literals that an added clause watches, and the place after the one of them that became
/// false first: up to there the clause has two open literals. It waits where all its other literals
/// became false before that place.
#[derive(Clone, Copy)]
pub struct Placing {
    pub watched: Option<(Literal, Literal)>,
    pub low: usize,
    pub waits: bool,
}

/// The first literal of a clause that is not false.
fn first_open(assignment: &Assignment, clause: &[Literal]) -> Option<Literal>
    ensures { IsFirstOpen assignment.now clause.now result }
{
    for literal in clause {
        if !assignment.is_false(*literal) {
            return Some(*literal);
        }
    }
    None
}

/// The least place from which on nothing is marked.
fn lowest(trail: &[Assigned], marked: &LiteralSet, from: usize) -> usize
    requires { from ≤ length trail.now }
    ensures { IsLow trail.now marked.now from result }
{
    let mut i = from;
    while i > 0 {
        if any_marked(marked, trail, i - 1, i) {
            return i;
        }
        i -= 1;
    }
    0
}

/// Where all marked literals but one are false: that one, and what became false last.
fn beside_open(trail: &[Assigned], marked: &LiteralSet, free: Literal) -> Placing
    requires apart { IsApart trail.now }
    requires marked { Contains marked.now free }
    requires is_free { has (falses trail.now) free ≡ false }
    requires others { All (λ m. CanStand trail.now m free false) marked.now }
    ensures { IsPlaced trail.now marked.now result.watched result.low result.waits }
{
    let low = lowest(trail, marked, trail.len());
    let watched = paired(free, below(trail, low));
    Placing {
        watched,
        low,
        waits: true,
    }
}

/// Where all marked literals are false: the two that became so last.
fn latest_two(trail: &[Assigned], marked: &LiteralSet) -> Placing
    requires apart { IsApart trail.now }
    requires all { All (λ l. has (falses trail.now) l ≡ true) marked.now }
    ensures { IsPlaced trail.now marked.now result.watched result.low result.waits }
{
    let last = lowest(trail, marked, trail.len());
    match below(trail, last) {
        None => Placing {
            watched: None,
            low: 0,
            waits: true,
        },
        Some(latest) => {
            let low = lowest(trail, marked, last - 1);
            let watched = paired(latest, below(trail, low));
            Placing {
                watched,
                low,
                waits: true,
            }
        }
    }
}

/// What a clause watches, and up to where it has two open literals; the marks are written over.
pub fn placed(
    assignment: &Assignment,
    clause: &[Literal],
    marked: &mut LiteralSet,
) -> Result<Placing, AllocError>
    ensures { IfOk result (λ p. IsPlaced assignment.now clause.now p.watched p.low p.waits) }
{
    marked.clear();
    marked.add_all(clause)?;
    let trail = assignment.entries();
    match first_open(assignment, clause) {
        None => Ok(latest_two(trail, marked)),
        Some(first) => match replacement(assignment, clause, first) {
            None => Ok(beside_open(trail, marked, first)),
            Some(second) => Ok(Placing {
                watched: Some((first, second)),
                low: trail.len(),
                waits: false,
            }),
        },
    }
}
