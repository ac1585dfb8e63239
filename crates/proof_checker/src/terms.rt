ghost use Rattle.std.specs.Prelude.{◌≡◌, ℕ, suc, List, [], IfOk, OnErr, slice_set};
ghost use lib.IntN.{ℤ, ◌+ℤ◌};
ghost use Rattle.proof_checker.specs.Theory.{value, plus, coefficient, add_term as add_term_of};
ghost use Rattle.proof_checker.specs.Slots.{AreSlots, place};
ghost use Rattle.proof_checker.specs.Outcomes.{Leaves};

use crate::trouble::Trouble;
use std::alloc::{AllocError, Global};
use std::marker::Model;

/// The terms of a sum, in the order in which their variables came. Each variable's place is kept,
/// so that its term is found at once; that of a variable past these is sought in the list.
#[derive(Drop)]
pub struct Terms {
    items: Vec<(u32, i128)>,
    slots: Vec<usize>,
}

impl Model for Terms {
    ghost Value = { List (ℕ × ℤ) };

    ghost view = { λ t. t.items.items };

    ghost invariant = { λ t. AreSlots t.slots.items t.items.items };
}

fn listed_place(terms: &[(u32, i128)], number: u32) -> usize
    ensures { result ≡ place terms.now number }
{
    for i in 0..terms.len() {
        if terms[i].0 == number {
            return i;
        }
    }
    terms.len()
}

#[tactic(auto, using(crate::proofs::Slots::place_none, crate::proofs::Slots::place_some))]
fn place_by(slots: &[usize], terms: &[(u32, i128)], number: u32) -> usize
    requires { AreSlots slots.now terms.now }
    ensures { result ≡ place terms.now number }
{
    let at = number as usize;
    if at >= slots.len() {
        return listed_place(terms, number);
    }
    let slot = slots[at];
    if slot == 0 { terms.len() } else { slot - 1 }
}

#[tactic(auto, using(crate::proofs::Added::coefficient_at, crate::proofs::Added::coefficient_past))]
fn coefficient_of(terms: &[(u32, i128)], at: usize, number: u32) -> i128
    requires { at ≡ place terms.now number }
    ensures { result ≡ coefficient terms.now number }
{
    if at < terms.len() { terms[at].1 } else { 0 }
}

// Gives one more than the term's place.
#[tactic(auto, using(crate::proofs::Added::plus_at, crate::proofs::Added::plus_past, crate::proofs::Slots::place_at_most))]
fn write_term(
    terms: &mut Vec<(u32, i128)>,
    at: usize,
    number: u32,
    more: i128,
    new: i128,
) -> Result<usize, Trouble>
    requires at { at ≡ place terms.old.items number }
    requires new { new ≡ coefficient terms.old.items number +ℤ more }
    ensures sum { Leaves (value (plus terms.old.items number more)) result terms.new.items }
    ensures slot { IfOk result (λ s. s ≡ suc (place terms.old.items number)) }
    ensures kept { OnErr result (terms.new.items ≡ terms.old.items) }
{
    if at < terms.len() {
        terms[at] = (number, new);
        return Ok(at + 1);
    }
    terms.push((number, more))?;
    Ok(terms.len())
}

fn set_slot(slots: &mut Vec<usize>, number: u32, slot: usize)
    ensures { slots.new.items ≡ slice_set slots.old.items number slot }
{
    let at = number as usize;
    if at < slots.len() {
        slots[at] = slot;
    }
}

fn forget_all(slots: &mut Vec<usize>, terms: &[(u32, i128)])
    requires { AreSlots slots.old.items terms.now }
    ensures { AreSlots slots.new.items [] }
{
    for i in 0..terms.len() {
        set_slot(slots, terms[i].0, 0);
    }
}

impl Terms {
    /// No terms, with the places of so many variables.
    pub fn new(alloc: Global, variables: usize) -> Result<Terms, AllocError>
        ensures { IfOk result (λ t. t ≡ []) }
    {
        let slots = vec![in alloc; 0; variables]?;
        Ok(Terms {
            items: Vec::new(alloc),
            slots,
        })
    }

    pub fn as_slice(&self) -> &[(u32, i128)]
        ensures { result.now ≡ self.now }
    {
        &self.items
    }

    /// So much more of the variable.
    pub fn add(&mut self, number: u32, more: i128) -> Result<(), Trouble>
        ensures { Leaves (add_term_of self.old number more) result self.new }
    {
        let at = place_by(&self.slots, &self.items, number);
        let new = kind_num::add(coefficient_of(&self.items, at, number), more)?;
        let slot = write_term(&mut self.items, at, number, more, new)?;
        set_slot(&mut self.slots, number, slot);
        Ok(())
    }

    /// Forgets the places of the listed terms alone.
    pub fn clear(&mut self)
        ensures { self.new ≡ [] }
    {
        forget_all(&mut self.slots, &self.items);
        self.items.clear();
    }
}
