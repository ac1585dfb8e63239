//! Which literals a learnt clause needs: one whose reason has no literal that is not marked goes,
//! after Sörensson and Biere, "Minimizing learned clauses", 2009.

ghost use Rattle.std.specs.Prelude.{◌≡◌, ◌+◌, ◌<◌, ◌≤◌, ℕ, IfOk, IsTrue, map, length, reverse};
ghost use Rattle.proof_steps.specs.declared.Literal.{Literal as SignedLiteral};
ghost use Rattle.sat_core.specs.Trail.{IsTrail};
ghost use Rattle.sat_core.specs.Reduction.{IsMarkedBut, AreMarkedBut, IsSpareAt, IsReduced};
ghost use Rattle.sat_core.specs.Looking.{IsLookedFor, IsPinned};

use crate::analysis::{is_marked, opposite};
use crate::assigned::Assigned;
use crate::set::{LiteralSet, same};
use crate::store::{ClauseStore, Looks};
use proof_steps::Literal;
use smallvec::SmallVec;
use std::alloc::AllocError;

/// Whether a literal is marked, or is the one that need not be.
fn is_marked_but(marked: &LiteralSet, literal: Literal, but: Literal) -> bool
    ensures { IsTrue result → IsMarkedBut marked.now but literal }
{
    same(literal, but) || marked.has(literal)
}

/// Whether all literals of a clause but one are marked.
fn all_marked(marked: &LiteralSet, clause: &[Literal], but: Literal) -> bool
    ensures { IsTrue result → AreMarkedBut marked.now but clause.now }
{
    for literal in clause {
        if !is_marked_but(marked, *literal, but) {
            return false;
        }
    }
    true
}

/// Whether the entry at a place has a reason all of whose other literals are marked.
fn is_spare(
    clauses: &ClauseStore,
    looks: &mut Looks,
    trail: &[Assigned],
    marked: &LiteralSet,
    at: usize,
) -> bool
    requires is_trail { IsTrail clauses.now trail.now }
    requires within { at < length trail.now }
    ensures spare { IsTrue result → IsSpareAt clauses.now trail.now marked.now at }
    ensures looked { IsLookedFor result looks.old looks.new }
{
    let entry = trail[at];
    if entry.reason == 0 {
        return false;
    }
    let reason = clauses.look(looks, entry.reason);
    all_marked(marked, reason.literals.as_slice(), entry.literal)
}

/// Keeps what the entry at a place made false, if that is marked; where it can be spared the hints
/// get its reason instead.
fn pass(
    clauses: &ClauseStore,
    looks: &mut Looks,
    trail: &[Assigned],
    marked: &LiteralSet,
    at: usize,
    low: usize,
    literals: &mut SmallVec<Literal, 4>,
    hints: &mut Vec<u32>,
) -> Result<usize, AllocError>
    requires is_trail { IsTrail clauses.now trail.now }
    requires within { at < length trail.now }
    ensures reduced { IfOk result (λ new. (n : ℕ) (last : SignedLiteral) → at < n
        → IsReduced clauses.now trail.now marked.now n last literals.old.items low (at + 1)
        (reverse hints.old.items)
        → IsReduced clauses.now trail.now marked.now n last literals.new.items new at
        (reverse hints.new.items)) }
    ensures looks { IfOk result (λ new. IsPinned looks.old looks.new (length hints.old.items) (length hints.new.items)
        (length literals.old.items) (length literals.new.items)) }
{
    let entry = trail[at];
    if !is_marked(marked, entry) {
        return Ok(low);
    }
    if is_spare(clauses, looks, trail, marked, at) {
        hints.push(entry.reason)?;
        return Ok(low);
    }
    literals.push(opposite(entry.literal))?;
    if low == 0 {
        return Ok(at + 1);
    }
    Ok(low)
}

/// Adds to the literal of the last level what is needed of the marked ones before it, from the last
/// to the first, and gives the least place from which on none of these became false.
/// The hints come from the last to the first.
pub fn reduce(
    clauses: &ClauseStore,
    looks: &mut Looks,
    trail: &[Assigned],
    marked: &LiteralSet,
    from: usize,
    literals: &mut SmallVec<Literal, 4>,
    hints: &mut Vec<u32>,
) -> Result<usize, AllocError>
    requires is_trail { IsTrail clauses.now trail.now }
    requires within { from ≤ length trail.now }
    ensures reduced { IfOk result (λ low. (last : SignedLiteral)
        → IsReduced clauses.now trail.now marked.now from last literals.old.items 0 from
        (reverse hints.old.items)
        → IsReduced clauses.now trail.now marked.now from last literals.new.items low 0
        (reverse hints.new.items)) }
    ensures looks { IfOk result (λ low. IsPinned looks.old looks.new (length hints.old.items) (length hints.new.items)
        (length literals.old.items) (length literals.new.items)) }
{
    let mut low = 0;
    let mut i = from;
    while i > 0 {
        i -= 1;
        low = pass(clauses, looks, trail, marked, i, low, literals, hints)?;
    }
    Ok(low)
}
