//! What stands in a declaration: `pre` and `->` with their clocks, right sides, and how calls run.

use lus_streams::clock::Clock;
use lus_tree::{Expr, PlacedName};

/// A `pre`: its number, the clock of its place and its operand.
#[derive(Clone, Copy)]
pub struct Memory<'a> {
    pub number: u32,
    pub clock: Clock<'a>,
    pub operand: &'a Expr,
}

/// A `->`: its number and the clock of its place.
#[derive(Clone, Copy)]
pub struct Start<'a> {
    pub number: u32,
    pub clock: Clock<'a>,
}

/// How a call runs: on its clock, where besides a condition is true, or as an import with these outputs.
#[derive(Clone, Copy)]
pub enum Manner<'a> {
    Plain,
    While(&'a Expr),
    Import(&'a [PlacedName]),
}

/// The right side of a name's equation, and the place of the name among its left names.
#[derive(Clone, Copy)]
pub struct Right<'a> {
    pub side: &'a Expr,
    pub place: usize,
}
