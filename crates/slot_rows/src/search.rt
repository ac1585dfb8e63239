//! The search by which slots are ordered: each is listed when all that it reads is.

ghost use Rattle.std.specs.Prelude.{◌≡◌, ◌<◌, [], true, not, length, take, IfOk, MatchBool};
ghost use Rattle.slot_rows.specs.Order.{IsUnranked};
ghost use Rattle.slot_rows.specs.SlotReads.{reads_view};
ghost use Rattle.slot_rows.specs.Searching.{GoesOn, IsPassed, IsSettled, Searching, again, are_done, entered, is_done, is_met, nothing_listed, search_view, with_listed};

use crate::slot_reads::SlotReads;
use std::alloc::{AllocError, Global};

/// Which slots are listed, which were met, and those that are being visited, each of them read by the one before it.
#[derive(Drop)]
pub(crate) struct Search {
    pub(crate) done: Vec<bool>,
    pub(crate) seen: Vec<bool>,
    /// For each slot a place in its reads before which all are listed.
    pub(crate) passed: Vec<usize>,
    pub(crate) visited: Vec<usize>,
    pub(crate) order: Vec<usize>,
}

/// Whether a slot is listed. For one behind the last one nothing has to wait.
fn is_done(done: &[bool], slot: usize) -> bool
    ensures { result ≡ is_done done.now slot }
{
    slot >= done.len() || done[slot]
}

/// The first place in a row, from that one on, where nothing listed stands.
fn pass(done: &[bool], row: &[u32], from: usize) -> usize
    requires { are_done done.now (take from row.now) ≡ true }
    ensures { IsPassed done.now row.now result }
{
    let mut place = from;
    while place < row.len() && is_done(done, row[place] as usize) {
        place += 1;
    }
    place
}

impl Search {
    /// Meets a slot, unless it was met.
    fn enter(&mut self, slot: usize) -> Result<bool, AllocError>
        ensures new { IfOk result (λ b. b ≡ not (is_met (search_view self.old) slot)) }
        ensures entered { IfOk result (λ _. search_view self.new ≡ entered (search_view self.old) slot) }
    {
        if slot >= self.seen.len() || self.seen[slot] {
            return Ok(false);
        }
        self.seen[slot] = true;
        self.visited.push(slot)?;
        Ok(true)
    }

    /// Lists a slot, unless it is.
    fn list(&mut self, slot: usize) -> Result<(), AllocError>
        ensures { IfOk result (λ _. search_view self.new ≡ with_listed (search_view self.old) slot) }
    {
        if is_done(&self.done, slot) {
            return Ok(());
        }
        self.done[slot] = true;
        self.order.push(slot)?;
        Ok(())
    }

    /// Visits the next slot that this one reads and that is not listed, or lists this one; unless slots read each
    /// other in a circle.
    fn advance(&mut self, rows: &SlotReads, slot: usize) -> Result<bool, AllocError>
        requires { Searching (reads_view rows.now) (again (search_view self.old) slot) }
        ensures { IfOk result (λ b. MatchBool b (GoesOn (reads_view rows.now) (again (search_view self.old) slot)
            (search_view self.new))
            (IsUnranked (reads_view rows.now))) }
    {
        let row = rows.row(slot);
        let place = pass(&self.done, row, self.passed[slot]);
        self.passed[slot] = place;
        if place < row.len() {
            self.visited.push(slot)?;
            let new = self.enter(row[place] as usize)?;
            return Ok(new);
        }
        self.list(slot)?;
        Ok(true)
    }

    /// Lists a slot, after all that it needs; unless slots read each other in a circle.
    pub(crate) fn visit(&mut self, rows: &SlotReads, root: usize) -> Result<bool, AllocError>
        requires searching { Searching (reads_view rows.now) (search_view self.old) }
        requires nothing { (search_view self.old).visited ≡ [] }
        requires below { root < length (reads_view rows.now) }
        ensures { IfOk result (λ b. MatchBool b (IsSettled (reads_view rows.now) (search_view self.old)
            (search_view self.new) root)
            (IsUnranked (reads_view rows.now))) }
    {
        self.enter(root)?;
        while let Some(slot) = self.visited.pop() {
            if !self.advance(rows, slot)? {
                return Ok(false);
            }
        }
        Ok(true)
    }

    /// A search that has listed nothing, of so many slots.
    pub(crate) fn new(alloc: Global, count: usize) -> Result<Self, AllocError>
        ensures { IfOk result (λ s. search_view s ≡ nothing_listed count) }
    {
        let done = vec![in alloc; false; count]?;
        let seen = vec![in alloc; false; count]?;
        let passed = vec![in alloc; 0; count]?;
        Ok(Search {
            done,
            seen,
            passed,
            visited: Vec::new(alloc),
            order: Vec::new(alloc),
        })
    }
}
