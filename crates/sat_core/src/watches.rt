//! Which clauses watch a literal.

ghost use Rattle.std.specs.Prelude.{◌≡◌, ◌≢◌, ◌++◌, ◌∷◌, ◌<◌, ◌≤◌, ◌-◌, ℕ, [], take, Some, OnOk, OnErr, length, slice_get};
ghost use Rattle.sat_core.specs.Set.{place_of};
ghost use Rattle.sat_core.specs.Watching.{Watching, lists_of, row, list_at, AreSame, IsSameBut, IsWithout, IsDropped, IsMoved, IsOther, IsPairAt, IsUnmoved, AreBoth, IsApartPair, IsEnteredWith};

use crate::set::{place, same};
use crate::short::Short;
use proof_steps::Literal;
use std::alloc::{AllocError, Global};
use std::marker::Model;

/// For each literal the clauses that watch it, and for each clause the two literals that it watches.
/// Clauses without two different literals are kept apart.
#[derive(Drop)]
pub struct Watches {
    lists: Vec<Vec<u32>>,
    pairs: Vec<Option<(Literal, Literal)>>,
    shorts: Vec<Short>,
}

impl Model for Watches {
    ghost use Rattle.sat_core.specs.Watching.{Watching, lists_of};

    ghost Value = { Watching };

    ghost view = { λ s. record { lists = lists_of s.lists.items; pairs = s.pairs.items; shorts = s.shorts.items } };
}

/// Makes room for the list at a place.
fn widen(alloc: Global, lists: &mut Vec<Vec<u32>>, place: usize) -> Result<(), AllocError>
    ensures ok { OnOk result (place < length lists.new.items) }
    ensures same { AreSame (lists_of lists.old.items) (lists_of lists.new.items) }
{
    while lists.len() <= place {
        lists.push(Vec::new(alloc))?;
    }
    Ok(())
}

/// Adds an entry to the list at a place.
fn push_at(
    alloc: Global,
    lists: &mut Vec<Vec<u32>>,
    place: usize,
    number: u32,
) -> Result<(), AllocError>
    ensures ok { OnOk result (IsSameBut (lists_of lists.old.items) (lists_of lists.new.items) place
        (row (lists_of lists.old.items) place ++ number ∷ [])) }
    ensures err { OnErr result (AreSame (lists_of lists.old.items) (lists_of lists.new.items)) }
{
    widen(alloc, lists, place)?;
    match lists[place].push(number) {
        Ok(()) => Ok(()),
        Err(_) => Err(AllocError),
    }
}

/// Takes the last entry out of the list at a place.
fn pop_at(lists: &mut Vec<Vec<u32>>, place: usize)
    ensures { IsSameBut (lists_of lists.old.items) (lists_of lists.new.items) place
        (take (length (row (lists_of lists.old.items) place) - 1) (row (lists_of lists.old.items) place)) }
{
    if place < lists.len() {
        let kept = lists[place].len().saturating_sub(1);
        lists[place].truncate(kept);
    }
}

/// Adds an entry to each of two lists, or to none.
fn push_both(
    alloc: Global,
    lists: &mut Vec<Vec<u32>>,
    number: u32,
    first: Literal,
    second: Literal,
) -> Result<(), AllocError>
    requires { first ≢ second }
    ensures ok { OnOk result (AreBoth (lists_of lists.old.items) (lists_of lists.new.items) number first second) }
    ensures err { OnErr result (AreSame (lists_of lists.old.items) (lists_of lists.new.items)) }
{
    push_at(alloc, lists, place(first), number)?;
    match push_at(alloc, lists, place(second), number) {
        Ok(()) => Ok(()),
        Err(fault) => {
            pop_at(lists, place(first));
            Err(fault)
        }
    }
}

/// Takes an entry out of the list at a place; the last one comes to stand there.
fn remove_at(lists: &mut Vec<Vec<u32>>, place: usize, at: usize)
    requires { at < length (row (lists_of lists.old.items) place) }
    ensures from { IsWithout (row (lists_of lists.old.items) place) (row (lists_of lists.new.items) place) at }
    ensures others { (q : ℕ) → q ≢ place → row (lists_of lists.new.items) q ≡ row (lists_of lists.old.items) q }
{
    if place < lists.len() {
        let _entry = lists[place].swap_remove(at);
    }
}

impl Watches {
    /// No clause watches anything.
    pub fn new(alloc: Global) -> Watches
        ensures { result ≡ record { lists = []; pairs = []; shorts = [] } }
    {
        Watches {
            lists: Vec::new(alloc),
            pairs: Vec::new(alloc),
            shorts: Vec::new(alloc),
        }
    }

    /// How many entries the literal's list has.
    pub fn count(&self, literal: Literal) -> usize
        ensures { result ≡ length (list_at self.now literal) }
    {
        match self.lists.get(place(literal)) {
            Some(list) => list.len(),
            None => 0,
        }
    }

    /// The number of a clause in the literal's list.
    pub fn entry(&self, literal: Literal, at: usize) -> u32
        requires { at < length (list_at self.now literal) }
        ensures { slice_get (list_at self.now literal) at ≡ Some result }
    {
        self.lists[place(literal)][at]
    }

    /// The clauses that watch nothing.
    pub fn shorts(&self) -> &[Short]
        ensures { result.now ≡ self.now.shorts }
    {
        &self.shorts
    }

    /// The other literal that a clause watches, if it watches this one.
    pub fn other(&self, number: u32, literal: Literal) -> Option<Literal>
        requires positive { 0 < number }
        requires within { number ≤ length self.now.pairs }
        ensures { IsOther self.now number literal result }
    {
        match self.pairs[number as usize - 1] {
            Some((first, second)) => {
                if same(first, literal) {
                    Some(second)
                } else if same(second, literal) {
                    Some(first)
                } else {
                    None
                }
            }
            None => None,
        }
    }

    /// The two literals that a clause watches, if there is one of that number and it watches any.
    pub fn pair(&self, number: u32) -> Option<(Literal, Literal)>
        ensures { IsPairAt self.now number result }
    {
        if number == 0 {
            return None;
        }
        match self.pairs.get(number as usize - 1) {
            Some(pair) => *pair,
            None => None,
        }
    }

    /// Takes an entry out of the literal's list.
    pub fn forget(&mut self, literal: Literal, at: usize)
        requires { at < length (list_at self.old literal) }
        ensures { IsDropped self.old self.new literal at }
    {
        remove_at(&mut self.lists, place(literal), at);
    }

    /// Lets a clause watch another literal in place of this one.
    pub fn replace(
        &mut self,
        alloc: Global,
        literal: Literal,
        at: usize,
        number: u32,
        other: Literal,
        found: Literal,
    ) -> Result<(), AllocError>
        requires entry { at < length (list_at self.old literal) }
        requires positive { 0 < number }
        requires within { number ≤ length self.old.pairs }
        requires apart { found ≢ literal }
        ensures ok { OnOk result (IsMoved self.old self.new literal at number other found) }
        ensures err { OnErr result (IsUnmoved self.old self.new) }
    {
        push_at(alloc, &mut self.lists, place(found), number)?;
        remove_at(&mut self.lists, place(literal), at);
        self.pairs[number as usize - 1] = Some((found, other));
        Ok(())
    }

    /// Lets the next clause watch two literals, or none; then its only literal is kept.
    pub fn enter(
        &mut self,
        alloc: Global,
        only: Option<Literal>,
        watched: Option<(Literal, Literal)>,
    ) -> Result<(), AllocError>
        requires few { length self.old.pairs < 4294967295 }
        requires apart { IsApartPair watched }
        ensures ok { OnOk result (IsEnteredWith self.old self.new only watched) }
        ensures err { OnErr result (IsUnmoved self.old self.new) }
    {
        let number = self.pairs.len() as u32 + 1;
        self.pairs.reserve(1)?;
        match watched {
            Some((first, second)) => push_both(alloc, &mut self.lists, number, first, second)?,
            None => self.shorts.push(Short {
                number,
                literal: only,
            })?,
        }
        self.pairs.push_reserved(watched);
        Ok(())
    }
}
