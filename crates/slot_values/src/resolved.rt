//! Expressions over slots.

use kind_num::Past;
use lus_meaning::Value;
use lus_tree::{Operator, Pos};

/// An operation whose result is outside 128 bits, and the place of its operator.
#[derive(Clone, Copy, Debug)]
pub struct PastAt {
    pub at: Pos,
    pub past: Past,
}

/// An expression whose names are numbers of slots, counted from the first slot of its frame. An operator whose result
/// may be outside 128 bits has its place.
#[cycle(resolved)]
#[derive(Drop)]
pub enum Resolved {
    /// A literal or a constant; none where there is no value.
    Known(Option<Value>),
    /// A name, the memory of a `pre`, or the output of a call.
    Slot(u32),
    /// `not a`
    Not(Box<Resolved>),
    /// `- a`
    Minus(Pos, Box<Resolved>),
    /// `a OPERATOR b`
    Binary(Pos, Operator, Box<Resolved>, Box<Resolved>),
    /// `if a then b else c`
    If(Box<Resolved>, Box<Resolved>, Box<Resolved>),
    /// `a -> b`, by the slot that is true at the first instant of its clock.
    Arrow(u32, Box<Resolved>, Box<Resolved>),
    /// `a when c`, or with false `a when not c`.
    When(u32, bool, Box<Resolved>),
    /// `merge c (true -> a) (false -> b)`
    Merge(u32, Box<Resolved>, Box<Resolved>),
    /// A call that runs while a condition is true: the condition, and the slots of the callee's beat, of its output,
    /// and of what is held of that.
    Latest(Box<Resolved>, u32, u32, u32),
}
