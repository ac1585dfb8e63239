//! Propagation by the clauses that watch a literal.

ghost use Rattle.std.specs.Prelude.{◌≡◌, ◌+◌, ◌<◌, ◌≤◌, List, OnErr, IfOk, All, map, length, slice_get, Some};
ghost use Rattle.sat_core.specs.declared.assigned.Assigned.{Assigned as Entry};
ghost use Rattle.sat_core.specs.Trail.{IsTrail};
ghost use Rattle.sat_core.specs.Held.{Covers, IsWithin};
ghost use Rattle.sat_core.specs.Watching.{list_at, IsOther, IsVisiting, IsWatched};
ghost use Rattle.sat_core.specs.Looking.{holders, spent, weight};
ghost use Rattle.sat_core.specs.Charged.{due, IsCharged, IsKept, IsWorked, failed_by, false_by};
ghost use Rattle.sat_core.specs.Visiting.{CanStand, IsReplacement, IsAdvance, IsVisit, IsVisitedAll, IsGoneThrough};

use crate::analysis::opposite;
use crate::assignment::Assignment;
use crate::set::same;
use crate::store::{ClauseStore, Looks};
use crate::watches::Watches;
use proof_steps::Literal;
use std::alloc::{AllocError, Global};

/// What a visit of an entry came to: the place of the next entry, or the number of a false clause.
#[derive(Clone, Copy)]
pub enum Visit {
    Next(usize),
    Failed(u32),
}

/// Whether a literal may be watched beside another one.
fn can_stand(assignment: &Assignment, literal: Literal, other: Literal) -> bool
    ensures { CanStand assignment.now literal other result }
{
    !assignment.is_false(literal) && !same(literal, other)
}

/// A literal of the clause that is not false, beside another one. A learnt clause's last literals became
/// false first, so they are tried first: what is true among them stays so for longest.
pub fn replacement(assignment: &Assignment, clause: &[Literal], other: Literal) -> Option<Literal>
    ensures { IsReplacement assignment.now clause.now other result }
{
    let mut i = clause.len();
    while i > 0 {
        i -= 1;
        if can_stand(assignment, clause[i], other) {
            return Some(clause[i]);
        }
    }
    None
}

/// Looks at a clause one of whose watched literals has become false.
fn look(
    alloc: Global,
    clauses: &ClauseStore,
    looks: &mut Looks,
    watches: &mut Watches,
    assignment: &mut Assignment,
    head: usize,
    literal: Literal,
    at: usize,
    next: usize,
    number: u32,
    other: Literal,
) -> Result<Visit, AllocError>
    requires is_trail { IsTrail clauses.now assignment.old }
    requires visiting { IsVisiting clauses.now assignment.old watches.old head literal at }
    requires next { next ≡ at + 1 }
    requires entry { slice_get (list_at watches.old literal) at ≡ Some number }
    requires other { IsOther watches.old number literal (Some other) }
    ensures visit { IfOk result (λ v. IsVisit clauses.now assignment.new watches.old watches.new head
        literal at v) }
    ensures watched { OnErr result (IsWatched clauses.now assignment.new watches.new head) }
    ensures advance { IsAdvance clauses.now assignment.old assignment.new }
    ensures shorts { watches.new.shorts ≡ watches.old.shorts }
    ensures kept { IsKept assignment.old head watches.old watches.new }
    ensures looks { IfOk result (λ v. IsCharged (due assignment.old watches.old literal)
        (due assignment.new watches.new literal) looks.old looks.new v) }
    ensures worked { IfOk result (λ v. (before : List Entry) → IsWorked clauses.now before assignment.old assignment.new
        watches.old watches.new looks.old looks.new (failed_by v)) }
{
    if assignment.is_true(other) {
        return Ok(Visit::Next(next));
    }
    let clause = clauses.look(looks, number);
    match replacement(assignment, clause.literals.as_slice(), other) {
        Some(found) => {
            match watches.replace(alloc, literal, at, number, other, found) {
                Ok(()) => Ok(Visit::Next(at)),
                Err(fault) => Err(fault),
            }
        }
        None => {
            if assignment.is_false(other) {
                return Ok(Visit::Failed(number));
            }
            match assignment.push(other, number) {
                Ok(()) => Ok(Visit::Next(next)),
                Err(fault) => Err(fault),
            }
        }
    }
}

/// Visits an entry of the list of a literal that has become false.
fn visit_entry(
    alloc: Global,
    clauses: &ClauseStore,
    looks: &mut Looks,
    watches: &mut Watches,
    assignment: &mut Assignment,
    head: usize,
    literal: Literal,
    at: usize,
    next: usize,
) -> Result<Visit, AllocError>
    requires is_trail { IsTrail clauses.now assignment.old }
    requires visiting { IsVisiting clauses.now assignment.old watches.old head literal at }
    requires next { next ≡ at + 1 }
    requires within { at < length (list_at watches.old literal) }
    ensures visit { IfOk result (λ v. IsVisit clauses.now assignment.new watches.old watches.new head
        literal at v) }
    ensures watched { OnErr result (IsWatched clauses.now assignment.new watches.new head) }
    ensures advance { IsAdvance clauses.now assignment.old assignment.new }
    ensures shorts { watches.new.shorts ≡ watches.old.shorts }
    ensures kept { IsKept assignment.old head watches.old watches.new }
    ensures looks { IfOk result (λ v. IsCharged (due assignment.old watches.old literal)
        (due assignment.new watches.new literal) looks.old looks.new v) }
    ensures worked { IfOk result (λ v. (before : List Entry) → IsWorked clauses.now before assignment.old assignment.new
        watches.old watches.new looks.old looks.new (failed_by v)) }
{
    let number = watches.entry(literal, at);
    match watches.other(number, literal) {
        Some(other) => look(
            alloc, clauses, looks, watches, assignment, head, literal, at, next, number, other,
        ),
        None => {
            watches.forget(literal, at);
            Ok(Visit::Next(at))
        }
    }
}

/// Visits all entries of the list of a literal that has become false.
fn visit_all(
    alloc: Global,
    clauses: &ClauseStore,
    looks: &mut Looks,
    watches: &mut Watches,
    assignment: &mut Assignment,
    head: usize,
    literal: Literal,
) -> Result<Option<u32>, AllocError>
    requires is_trail { IsTrail clauses.now assignment.old }
    requires visiting { IsVisiting clauses.now assignment.old watches.old head literal 0 }
    ensures visited { IfOk result (λ r. IsVisitedAll clauses.now assignment.new watches.new head r) }
    ensures watched { OnErr result (IsWatched clauses.now assignment.new watches.new head) }
    ensures advance { IsAdvance clauses.now assignment.old assignment.new }
    ensures shorts { watches.new.shorts ≡ watches.old.shorts }
    ensures kept { IsKept assignment.old head watches.old watches.new }
    ensures looks { IfOk result (λ r. (looks.new ≤ looks.old + holders clauses.now literal) × (looks.old ≤ looks.new)) }
    ensures worked { IfOk result (λ r. (before : List Entry) → IsWorked clauses.now before assignment.old assignment.new
        watches.old watches.new looks.old looks.new (false_by r)) }
{
    let mut at = 0;
    while at < watches.count(literal) {
        match visit_entry(
            alloc,
            clauses,
            looks,
            watches,
            assignment,
            head,
            literal,
            at,
            at + 1,
        )? {
            Visit::Next(next) => at = next,
            Visit::Failed(number) => return Ok(Some(number)),
        }
    }
    Ok(None)
}

/// Propagates until the lists of all false literals are gone through, or a clause is false; gives
/// the number of such a clause.
pub fn propagate(
    alloc: Global,
    clauses: &ClauseStore,
    looks: &mut Looks,
    variables: &[Literal],
    watches: &mut Watches,
    assignment: &mut Assignment,
    head: &mut usize,
) -> Result<Option<u32>, AllocError>
    requires is_trail { IsTrail clauses.now assignment.old }
    requires covers { All (Covers variables.now) clauses.now }
    requires within { IsWithin variables.now assignment.old }
    requires watched { IsWatched clauses.now assignment.old watches.old head.old }
    ensures gone { IfOk result (λ r. IsGoneThrough clauses.now assignment.new head.new r) }
    ensures watched { IsWatched clauses.now assignment.new watches.new head.new }
    ensures advance { IsAdvance clauses.now assignment.old assignment.new }
    ensures shorts { watches.new.shorts ≡ watches.old.shorts }
    ensures kept { IsKept assignment.old head.old watches.old watches.new }
    ensures looks { IfOk result (λ r. (looks.new + spent clauses.now assignment.old head.old
        ≤ looks.old + weight clauses.now assignment.new) × (looks.old ≤ looks.new)) }
    ensures worked { IfOk result (λ r. (before : List Entry) → IsWorked clauses.now before assignment.old assignment.new
        watches.old watches.new looks.old looks.new (false_by r)) }
{
    while *head < assignment.entries().len() {
        let literal = opposite(assignment.entries()[*head].literal);
        if let Some(number) = visit_all(
            alloc, clauses, looks, watches, assignment, *head, literal,
        )? {
            return Ok(Some(number));
        }
        *head += 1;
    }
    Ok(None)
}
