//! Sources.

use lus_meaning::Value;
use slot_values::Resolved;

/// A clock, by the slot that tells it: it is on where the slot has this truth value. The base clock of a frame is on
/// where its beat is true.
#[derive(Clone, Copy, Debug)]
pub struct Switch {
    pub slot: u32,
    pub wanted: bool,
}

/// What gives a slot its value at an instant. Slots are counted from the first one of the analysed declaration.
#[derive(Drop)]
pub enum Source {
    /// True throughout: the beat of the analysed declaration.
    Always,
    /// Where the clock of a call is on: the beat of its frame.
    Runs(Switch),
    /// Where besides a condition is true.
    RunsWhile(Switch, Resolved),
    /// What another slot has: the beat and the outputs of an import.
    Same(u32),
    /// The value of a right side, on the clock of its names.
    Given(Switch, Resolved),
    /// The value of an argument, on the clock of its call, where the beat of the callee's frame is true.
    Argument(u32, Switch, Resolved),
    /// What a trace lists, on the clock of a name that nothing gives.
    Listed(Switch),
    /// The value of the operand of a `pre` at the last earlier instant of its clock.
    Remembered(Switch, Resolved),
    /// Whether the clock of an `->` was on at no earlier instant.
    Starting(Switch),
    /// The output of a call at the last earlier instant at which its beat was true, else the default.
    Held {
        beat: u32,
        output: u32,
        default: Option<Value>,
    },
    /// Nothing: no expression reads the slot.
    Unread,
}
