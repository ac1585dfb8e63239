//! The parts of an instant.

ghost use Rattle.std.specs.Prelude.{◌≡◌, ◌++◌, List, [], IfOk, OnOk};
ghost use Rattle.lus_meaning.specs.Cycle.{Place};
ghost use Rattle.evaluation_parts.specs.PartViews.{filled, filled_each, needed_in, parts_view};

use lus_streams::clock::Clock;
use lus_tree::{Expr, PlacedName};
use std::alloc::{AllocError, Global};
use std::rc::Rc;

/// What is needed of an instant, seen from the analysed frame: a name, or the beat where there is none, of the frame at
/// the end of a way of calls, each counted from 0.
#[derive(Drop)]
pub struct Needed<'a> {
    pub way: Vec<u32>,
    pub name: Option<&'a str>,
}

/// The names that an evaluated part gives: none, that of a ghost variable, or those on the left of an equation.
#[derive(Clone, Copy)]
pub enum Gives<'a> {
    Nothing,
    Name(&'a PlacedName),
    Names(&'a [PlacedName]),
}

/// What a whole needs of its own instant; where it is not said, what the whole needs in which a mode is named.
#[derive(Drop)]
pub struct Whole<'a> {
    pub needs: Option<Rc<Vec<Needed<'a>>>>,
}

/// A part that is evaluated: the calls on the way to its frame, each by its number, the clock on which it stands there,
/// the expression, what its whole needs, and the names that it gives.
#[derive(Drop)]
pub struct Part<'a> {
    pub way: Vec<u32>,
    pub clock: Clock<'a>,
    pub expression: &'a Expr,
    pub whole: Whole<'a>,
    pub gives: Gives<'a>,
}

impl<'a> Whole<'a> {
    /// The same, shared.
    pub(crate) fn shared(&self) -> Result<Whole<'a>, AllocError>
        ensures { IfOk result (λ w. (ns : List Place) → needed_in ns w ≡ needed_in ns self.now) }
    {
        match &self.needs {
            Some(needs) => Ok(Whole {
                needs: Some(needs.clone()?),
            }),
            None => Ok(Whole { needs: None }),
        }
    }

    /// The same, where what is not said is what the other whole needs.
    fn shared_in(&self, other: &Whole<'a>) -> Result<Whole<'a>, AllocError>
        ensures { IfOk result (λ w. (ns : List Place)
            → needed_in ns w ≡ needed_in (needed_in ns other.now) self.now) }
    {
        match &self.needs {
            Some(needs) => Ok(Whole {
                needs: Some(needs.clone()?),
            }),
            None => other.shared(),
        }
    }
}

/// A whole that needs nothing.
pub(crate) fn of_nothing<'a>(alloc: Global) -> Result<Whole<'a>, AllocError>
    ensures { IfOk result (λ w. (ns : List Place) → needed_in ns w ≡ []) }
{
    Ok(Whole {
        needs: Some(Rc::new(alloc, Vec::new(alloc))?),
    })
}

impl<'a> Part<'a> {
    /// The same, where what is not said is what that whole needs.
    pub(crate) fn copied_in(&self, alloc: Global, whole: &Whole<'a>) -> Result<Part<'a>, AllocError>
        ensures { IfOk result (λ p. (ns : List Place) → filled ns p ≡ filled (needed_in ns whole.now) self.now) }
    {
        let way = Vec::from_slice(alloc, &self.way)?;
        let whole = self.whole.shared_in(whole)?;
        Ok(Part {
            way,
            clock: self.clock,
            expression: self.expression,
            whole,
            gives: self.gives,
        })
    }
}

/// The parts, and behind them equal ones, where what is not said is what that whole needs.
pub(crate) fn push_copies<'a>(
    alloc: Global,
    parts: &mut Vec<Part<'a>>,
    whole: &Whole<'a>,
    more: &[Part<'a>],
) -> Result<(), AllocError>
    ensures { OnOk result ((ns : List Place) → filled_each ns parts.new.items
        ≡ filled_each ns parts.old.items ++ filled_each (needed_in ns whole.now) more.now) }
{
    for part in more {
        parts.push(part.copied_in(alloc, whole)?)?;
    }
    Ok(())
}

/// The parts, and behind them equal ones, of which each has its whole.
pub(crate) fn push_closed<'a>(
    alloc: Global,
    parts: &mut Vec<Part<'a>>,
    more: &[Part<'a>],
) -> Result<(), AllocError>
    ensures { OnOk result ((ns : List Place) → filled_each ns parts.new.items
        ≡ filled_each ns parts.old.items ++ parts_view more.now) }
{
    let whole = of_nothing(alloc)?;
    push_copies(alloc, parts, &whole, more)?;
    Ok(())
}
