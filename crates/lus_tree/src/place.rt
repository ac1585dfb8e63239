//! Places of the source, names and declared streams.

ghost use Rattle.std.specs.Prelude.{◌≡◌, IfOk, option_map};
ghost use Rattle.lus_tree.specs.Tree.{Spelled, Variable};
ghost use Rattle.lus_tree.specs.View.{clock_view, param_view, word_view};

use crate::copies::Copied;
use std::alloc::{AllocError, Global};

/// A place of the source: a line, and a byte of that line. Both count from 1.
#[derive(Clone, Copy, PartialEq, Eq, Debug)]
pub struct Pos {
    pub line: u32,
    pub column: u32,
}

/// The type of a stream: truth values, or unbounded integers.
#[derive(Clone, Copy, PartialEq, Eq, Debug)]
pub enum Sort {
    Bool,
    Int,
}

/// A name and the place of its first byte.
#[derive(Drop)]
pub struct PlacedName {
    pub text: String,
    pub at: Pos,
}

/// A declared stream. Without a clock it is on the base clock of its declaration; the clock
/// `(true, c)` is on where `c` is true, and `(false, c)` where `c` is false.
#[derive(Drop)]
pub struct Param {
    pub name: PlacedName,
    pub sort: Sort,
    pub clock: Option<(bool, PlacedName)>,
}

impl PlacedName {
    /// An equal word.
    pub fn copied(&self, alloc: Global) -> Result<PlacedName, AllocError>
        ensures { IfOk result (λ w. word_view w ≡ word_view self.now) }
    {
        let text = String::from_str(alloc, &self.text)?;
        Ok(PlacedName { text, at: self.at })
    }
}

pub(crate) fn copied_word_or_none(
    word: &Option<PlacedName>,
    alloc: Global,
) -> Result<Option<PlacedName>, AllocError>
    ensures { IfOk result (λ o. option_map word_view o ≡ option_map word_view word.now) }
{
    match word {
        Some(word) => Ok(Some(word.copied(alloc)?)),
        None => Ok(None),
    }
}

impl Copied for PlacedName {
    ghost View = { Spelled };

    ghost view = { word_view };

    fn copy(&self, alloc: Global) -> Result<PlacedName, AllocError> {
        self.copied(alloc)
    }
}

impl Param {
    /// An equal stream.
    pub fn copied(&self, alloc: Global) -> Result<Param, AllocError>
        ensures { IfOk result (λ p. param_view p ≡ param_view self.now) }
    {
        Ok(Param {
            name: self.name.copied(alloc)?,
            sort: self.sort,
            clock: copied_clock(&self.clock, alloc)?,
        })
    }
}

fn copied_clock(
    clock: &Option<(bool, PlacedName)>,
    alloc: Global,
) -> Result<Option<(bool, PlacedName)>, AllocError>
    ensures { IfOk result (λ c. clock_view c ≡ clock_view clock.now) }
{
    match clock {
        Some((on, word)) => Ok(Some((*on, word.copied(alloc)?))),
        None => Ok(None),
    }
}

impl Copied for Param {
    ghost View = { Variable };

    ghost view = { param_view };

    fn copy(&self, alloc: Global) -> Result<Param, AllocError> {
        self.copied(alloc)
    }
}
